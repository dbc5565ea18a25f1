ghost use Rattle.std.specs.Prelude.{◌≡◌, ◌+◌, ◌-◌, ◌<◌, ◌≤◌, [], length, take, drop, slice_range, IfOk, OnOk, OnErr, vec_len};
ghost use Rattle.std.specs.Io.KnownBytes.{Keeps, Consumes, IsAtEnd};
ghost use Rattle.fw_base.specs.Faults.{HasCause};
ghost use Rattle.pcap_read.specs.Window.{Refills};

use fw_base::{Failed, OutOfMemory, Source};
use std::alloc::Global;
use std::marker::Model;

/// The bytes that one record takes at most: its header and 262,144 captured bytes.
const MOST_OF_A_RECORD: usize = 262_160;

/// How many bytes a read asks for at least.
const READ_AHEAD: usize = 131_072;

/// The size of the buffer.
const CAPACITY: usize = MOST_OF_A_RECORD + READ_AHEAD;

/// Bytes that were taken from a source and are not used yet, in one buffer that never grows.
///
/// Bytes are moved only to make room for a read, and then to the front. From there a whole record fits
/// with room to spare, so no byte is moved twice.
#[derive(Drop)]
pub(crate) struct Window {
    buffer: Vec<u8>,
    start: usize,
    end: usize,
}

impl Model for Window {
    ghost use Rattle.std.specs.Prelude.{List, ℕ, slice_range, vec_len};
    ghost use Rattle.pcap_read.specs.Window.{IsWindow};

    ghost Value = { List ℕ };

    ghost view = { λ w. slice_range w.buffer.items w.start w.end };

    ghost invariant = { λ w. IsWindow (vec_len w.buffer) w.start w.end };
}

impl Window {
    /// Takes the buffer.
    pub(crate) fn new(alloc: Global) -> Result<Window, OutOfMemory>
        ensures { IfOk result (λ window. window ≡ []) }
    {
        let mut buffer = Vec::with_capacity(alloc, CAPACITY)?;
        buffer.resize(CAPACITY, 0)?;
        Ok(Window {
            buffer,
            start: 0,
            end: 0,
        })
    }

    /// How many bytes it holds.
    #[inline(always)]
    pub(crate) fn len(&self) -> usize
        ensures { result ≡ length self.now }
    {
        self.end - self.start
    }

    /// The bytes that it holds.
    #[inline(always)]
    pub(crate) fn bytes(&self) -> &[u8]
        ensures { result.now ≡ self.now }
    {
        &self.buffer[self.start..self.end]
    }

    /// Lets the first `count` bytes go.
    #[inline(always)]
    pub(crate) fn skip(&mut self, count: usize)
        requires { count ≤ length self.old }
        ensures { self.new ≡ drop count self.old }
    {
        self.start += count;
    }

    /// Reads once behind the bytes that it holds, and answers how many bytes came.
    #[inline(never)]
    pub(crate) fn refill<S: Source>(&mut self, source: &mut S) -> Result<usize, Failed>
        requires { length self.old < 262160 }
        ensures refills { Refills (S.left source.old) (S.left source.new) self.old self.new result }
        ensures cause { HasCause (S.faults source.old) (S.faults source.new) result }
        ensures steady { OnOk result (S.faults source.new ≡ S.faults source.old) }
    {
        let (start, end) = make_room(&mut self.buffer, self.start, self.end);
        self.start = start;
        self.end = end;
        let count = read_behind(source, &mut self.buffer, end)?;
        self.end = end + count;
        Ok(count)
    }
}

/// Where no bytes are held, or too few fit behind them, moves them to the front. Answers where they
/// stand then.
fn make_room(buffer: &mut Vec<u8>, start: usize, end: usize) -> (usize, usize)
    requires ordered { start ≤ end }
    requires within { end ≤ vec_len buffer.old }
    requires size { vec_len buffer.old ≡ 393232 }
    requires few { end - start < 262160 }
    ensures len { vec_len buffer.new ≡ vec_len buffer.old }
    ensures ordered { result.0 ≤ result.1 }
    ensures room { result.1 + 131072 ≤ vec_len buffer.new }
    ensures kept { slice_range buffer.new.items result.0 result.1
        ≡ slice_range buffer.old.items start end }
{
    if start == end {
        return (0, 0);
    }
    if CAPACITY - end >= READ_AHEAD {
        return (start, end);
    }
    buffer.copy_within(start..end, 0);
    (0, end - start)
}

/// Reads once into the buffer from `end` on.
fn read_behind<S: Source>(source: &mut S, buffer: &mut Vec<u8>, end: usize) -> Result<usize, Failed>
    requires { end < vec_len buffer.old }
    ensures len { vec_len buffer.new ≡ vec_len buffer.old }
    ensures kept { take end buffer.new.items ≡ take end buffer.old.items }
    ensures bound { IfOk result (λ n. end + n ≤ vec_len buffer.new) }
    ensures bytes { IfOk result (λ n.
        Consumes (S.left source.old) (S.left source.new)
        (slice_range buffer.new.items end (end + n))) }
    ensures last { IfOk result (λ n. n ≡ 0 → IsAtEnd (S.left source.new)) }
    ensures err { OnErr result (Keeps (S.left source.old) (S.left source.new)) }
    ensures cause { HasCause (S.faults source.old) (S.faults source.new) result }
    ensures steady { OnOk result (S.faults source.new ≡ S.faults source.old) }
{
    source.read(&mut buffer[end..])
}

ghost use Rattle.std.specs.Prelude.{◌≡◌, ◌≤◌, ◌<◌, [], ◌++◌, IfOk, OnOk, OnErr, length, if◌then◌else◌};
ghost use Rattle.std.specs.Io.{WritesAtMost};
ghost use Rattle.std.specs.Io.KnownBytes.{WriteAppends};
ghost use Rattle.fw_base.specs.Faults.{HasCause};
ghost use Rattle.buffered_io.specs.PieceSink as spec;
ghost use Rattle.buffered_io.specs.PieceSink.{HandsOn};

use fw_base::{Failed, Sink};
use std::marker::Model;
use std::snapshot::Snapshot;

/// A sink before another one, which is given text in pieces as large as the buffer. Contracts see the other one, what
/// it was not given yet, and the other one as it was at first.
#[derive(Drop)]
pub struct PieceSink<K> {
    sink: K,
    buffer: Vec<u8>,
    /// What stands before this place in the buffer was handed on.
    start: usize,
    /// The sink as it was at first, for contracts.
    begun: Snapshot<K>,
}

impl<K> Model for PieceSink<K> {
    ghost use Rattle.std.specs.Prelude.{◌≤◌, drop, vec_len};
    ghost use Rattle.buffered_io.specs.PieceSink.{PieceText};

    ghost Value = { PieceText K };

    ghost view = { λ p. record {
      sink = p.sink;
      pending = drop p.start p.buffer.items;
      begun = p.begun.value;
    } };

    ghost invariant = { λ p. p.start ≤ vec_len p.buffer };
}

impl<K: Sink> PieceSink<K> {
    /// A sink before this one, with this buffer, which is empty.
    pub fn new(sink: K, buffer: Vec<u8>) -> PieceSink<K>
        requires { buffer.items ≡ [] }
        ensures { result ≡ record { sink = sink; pending = []; begun = sink } }
    {
        let begun = Snapshot::of(&sink);
        PieceSink {
            sink,
            buffer,
            start: 0,
            begun,
        }
    }

    /// Hands the sink all that is buffered. Where the sink fails, what it didn't take stays buffered.
    pub fn flush(&mut self) -> Result<(), Failed>
        ensures all { OnOk result (self.new.pending ≡ []) }
        ensures handed_on { HandsOn K.state self.old self.new }
        ensures cause { HasCause (K.state self.old.sink).faults (K.state self.new.sink).faults
            result }
    {
        while self.start < self.buffer.len() {
            let count = self.sink.write(&self.buffer[self.start..])?;
            self.start += count;
        }
        self.buffer.clear();
        self.start = 0;
        Ok(())
    }

    /// Buffers the bytes where there is room for them all, and says whether there was.
    fn buffer(&mut self, bytes: &[u8]) -> bool
        ensures { self.new ≡ (if result
            then record self.old { pending = self.old.pending ++ bytes.now } else self.old) }
    {
        push_within(&mut self.buffer, bytes)
    }

    /// Hands the sink bytes that aren't buffered.
    fn pass(&mut self, bytes: &[u8]) -> Result<usize, Failed>
        ensures bound { WritesAtMost result bytes.now }
        ensures advances { IfOk result (λ count. 0 < length bytes.now → 0 < count) }
        ensures bytes { WriteAppends (K.state self.old.sink).written
            (K.state self.new.sink).written result bytes.now }
        ensures made { (K.state self.new.sink).made_with ≡ (K.state self.old.sink).made_with }
        ensures cause { HasCause (K.state self.old.sink).faults (K.state self.new.sink).faults
            result }
        ensures kept { self.new ≡ record self.old { sink = self.new.sink } }
    {
        self.sink.write(bytes)
    }

    /// The sink, with what it was given.
    pub fn into_inner(self) -> K
        ensures { result ≡ self.sink }
    {
        self.sink
    }
}

/// Appends the bytes where there is room for them all, and says whether there was.
fn push_within(buffer: &mut Vec<u8>, bytes: &[u8]) -> bool
    ensures { buffer.new.items ≡ (if result then buffer.old.items ++ bytes.now
        else buffer.old.items) }
{
    if bytes.len() > buffer.capacity() - buffer.len() {
        return false;
    }
    buffer.extend_from_slice(bytes).is_ok()
}

impl<K: Sink> Sink for PieceSink<K> {
    ghost state = { spec.state_of K.state };

    fn write(&mut self, bytes: &[u8]) -> Result<usize, Failed> {
        if self.buffer(bytes) {
            return Ok(bytes.len());
        }
        self.flush()?;
        if self.buffer(bytes) {
            return Ok(bytes.len());
        }
        self.pass(bytes)
    }
}

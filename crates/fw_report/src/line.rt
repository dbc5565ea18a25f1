ghost use Rattle.std.specs.Prelude.{◌≡◌, ◌+◌, ◌≤◌, ◌++◌, [], length, drop};
ghost use Rattle.std.specs.Fmt.{decimal};
ghost use Rattle.fw_base.specs.Addr.{address_text};
ghost use Rattle.fw_base.specs.Texts.{WritesText};
ghost use Rattle.rule_text.specs.Canonical.{five_digits};

use fw_base::{Addr, Failed, Sink, write_text};
use itoa::write_digits;
use std::marker::Model;

/// How long a line can be. What a function puts at most is the clause `room` of its contract.
pub(crate) const LINE_BYTES: usize = 384;

/// Writes the text so that it ends at `end`, and answers where it starts.
#[inline(always)]
fn write_before(text: &[u8], bytes: &mut [u8], end: usize) -> usize
    requires within { end ≤ length bytes.old }
    requires room { length text.now ≤ end }
    ensures start { result + length text.now ≡ end }
    ensures written { drop result bytes.new ≡ text.now ++ drop end bytes.old }
{
    let start = end - text.len();
    bytes[start..end].copy_from_slice(text);
    start
}

/// A line that is composed from its end to its start: each piece is put before those that stand, since the
/// digits of a number are found from the last to the first.
#[derive(Drop)]
pub(crate) struct Line {
    bytes: [u8; LINE_BYTES],
    start: usize,
}

impl Model for Line {
    ghost use Rattle.std.specs.Prelude.{◌≤◌, List, ℕ, drop};
    ghost use Rattle.fw_report.specs.declared.line.TheConstants.{LINE_BYTES};

    ghost Value = { List ℕ };

    ghost view = { λ line. drop line.start line.bytes };

    ghost invariant = { λ line. line.start ≤ LINE_BYTES };
}

impl Line {
    /// A line with nothing in it.
    pub(crate) fn new() -> Line
        ensures { result ≡ [] }
    {
        Line {
            bytes: [0; LINE_BYTES],
            start: LINE_BYTES,
        }
    }

    /// Takes all out.
    pub(crate) fn clear(&mut self)
        ensures { self.new ≡ [] }
    {
        self.start = LINE_BYTES;
    }

    /// Puts a text before what stands.
    #[inline(always)]
    pub(crate) fn put_text(&mut self, text: &[u8])
        requires { length self.old + length text.now ≤ LINE_BYTES }
        ensures items { self.new ≡ text.now ++ self.old }
        ensures room { length self.new ≤ length self.old + length text.now }
    {
        self.start = write_before(text, &mut self.bytes, self.start);
    }

    /// Puts a number before what stands, in decimal digits, of which there are at most 20.
    pub(crate) fn put_number(&mut self, n: u64)
        requires { length self.old + 20 ≤ LINE_BYTES }
        ensures items { self.new ≡ decimal n ++ self.old }
        ensures room { length self.new ≤ length self.old + 20 }
    {
        self.start = write_digits(n, &mut self.bytes, self.start);
    }

    /// Puts a word and a count before what stands.
    #[inline(always)]
    pub(crate) fn put_counted(&mut self, word: &[u8], count: u32)
        requires { length self.old + (length word.now + 20) ≤ LINE_BYTES }
        ensures items { self.new ≡ word.now ++ (decimal count ++ self.old) }
        ensures room { length self.new ≤ length self.old + (length word.now + 20) }
    {
        self.put_number(u64::from(count));
        self.put_text(word);
    }

    /// Puts a number of at most three digits.
    #[inline(always)]
    fn put_octet(&mut self, n: u8)
        requires { length self.old + 3 ≤ LINE_BYTES }
        ensures items { self.new ≡ decimal n ++ self.old }
        ensures room { length self.new ≤ length self.old + 3 }
    {
        self.start = write_digits(u64::from(n), &mut self.bytes, self.start);
    }

    /// Puts an address before what stands, as four numbers with dots between them.
    #[tactic(auto, unfolding(fw_base::specs::Addr::address_text))]
    pub(crate) fn put_address(&mut self, address: Addr)
        requires { length self.old + 15 ≤ LINE_BYTES }
        ensures items { self.new ≡ address_text address.0 ++ self.old }
        ensures room { length self.new ≤ length self.old + 15 }
    {
        let [first, second, third, fourth] = address.0.to_be_bytes();
        self.put_octet(fourth);
        self.put_text(b".");
        self.put_octet(third);
        self.put_text(b".");
        self.put_octet(second);
        self.put_text(b".");
        self.put_octet(first);
    }

    /// Puts a number before what stands, in five digits.
    #[tactic(auto, unfolding(rule_text::specs::Canonical::five_digits))]
    pub(crate) fn put_five_digits(&mut self, n: u16)
        requires { length self.old + 5 ≤ LINE_BYTES }
        ensures items { self.new ≡ five_digits n ++ self.old }
        ensures room { length self.new ≤ length self.old + 5 }
    {
        let end = self.start;
        let start = write_digits(u64::from(n), &mut self.bytes, end);
        let zeros = 5 - (end - start);
        self.start = write_before(&b"00000"[..zeros], &mut self.bytes, start);
    }

    /// Writes the line.
    pub(crate) fn write<K: Sink>(&self, out: &mut K) -> Result<(), Failed>
        ensures { WritesText (K.state out.old) (K.state out.new) self.now result }
    {
        write_text(out, &self.bytes[self.start..])
    }
}

/// Writes a line whose middle is a text that is too long to be composed.
#[inline(never)]
pub(crate) fn write_around<K: Sink>(
    out: &mut K,
    front: &Line,
    text: &[u8],
    rest: &Line,
) -> Result<(), Failed>
    ensures { WritesText (K.state out.old) (K.state out.new)
        (front.now ++ (text.now ++ rest.now)) result }
{
    front.write(out)?;
    write_text(out, text)?;
    rest.write(out)
}

ghost use Rattle.std.specs.Prelude.{◌≡◌, ℕ, List, Option, OnOk};
ghost use Rattle.std.specs.Io.{ReadsAtMost};
ghost use Rattle.std.specs.Io.KnownBytes.{ReadConsumes};
ghost use Rattle.fw_base.specs.Faults.{HasCause};

use crate::Failed;

/// Bytes from outside, read from front to back.
///
/// Contracts see the bytes that are left, where the source tells them, and a count of its faults,
/// which never falls.
pub trait Source: Drop {
    ghost left: { Self → Option (List ℕ) };

    ghost faults: { Self → ℕ };

    /// Reads some of the next bytes into the front of `buf` and answers how many: 0 only at the end,
    /// or for an empty buffer. It fails only where the count of faults rose, and where it doesn't fail
    /// the count stays.
    fn read(&mut self, buf: &mut [u8]) -> Result<usize, Failed>
        ensures bound { ReadsAtMost result buf.new }
        ensures bytes { ReadConsumes (left self.old) (left self.new) result buf.new }
        ensures cause { HasCause (faults self.old) (faults self.new) result }
        ensures steady { OnOk result (faults self.new ≡ faults self.old) };

    /// How many of its calls failed; the count stands still at the end of 64 bits.
    fn faults(&self) -> u64
        ensures { result ≡ faults self.now };
}

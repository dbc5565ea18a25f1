ghost use Rattle.std.specs.Prelude.{◌≡◌, ℕ, List, Option, Some, IfOk, OnOk, OnErr};
ghost use Rattle.fw_base.specs.Faults.{HasCause};
ghost use Rattle.fw_base.specs.Pairs.{Pair, TakesOut};

use crate::{Failed, Name, Source};

/// Where sources are opened by their names.
///
/// Contracts see the list of pairs of a name and its bytes, where the library tells it, a count of
/// its faults, which never falls, and the last name that it refused.
pub trait Library {
    type Reader: Source;

    ghost pairs: { Self → Option (List Pair) };

    ghost faults: { Self → ℕ };

    ghost refused: { Self → Option (List ℕ) };

    /// Opens a reader, which has the bytes of the first pair of that name, and takes the pair out of
    /// the list. Where it fails the list stays, and the name is the last one refused; it fails only
    /// where the count of faults rose.
    fn open(&mut self, name: Name) -> Result<Self::Reader, Failed>
        ensures opened { IfOk result (λ reader.
            TakesOut (pairs self.old) (pairs self.new) name (Self.Reader.left reader)) }
        ensures fresh { IfOk result (λ reader. Self.Reader.faults reader ≡ 0) }
        ensures not_refused { OnOk result (refused self.new ≡ refused self.old) }
        ensures stays { OnErr result (pairs self.new ≡ pairs self.old) }
        ensures refused { OnErr result (refused self.new ≡ Some name) }
        ensures cause { HasCause (faults self.old) (faults self.new) result }
        ensures steady { OnOk result (faults self.new ≡ faults self.old) };
}

ghost use Rattle.std.specs.Prelude.{◌↔◌, ◌≡◌, IsTrue};
ghost use Rattle.lookup_tables.specs.Piece.{decider};

use fw_base::{Addr, Prefix};

/// Addresses side by side that one prefix of a table decides: from `first` to the one before the next
/// piece begins, or to 255.255.255.255.
#[derive(Clone, Copy)]
pub struct Piece {
    /// The first of the addresses.
    pub first: Addr,
    /// The value of the longest prefix that has them; none where no prefix has them.
    pub value: Option<u32>,
    /// That prefix. It tells nothing where there is none.
    pub(crate) prefix: Prefix,
}

impl Piece {
    /// Whether one prefix decides both, or none does.
    pub(crate) fn is_like(&self, other: &Piece) -> bool
        ensures { IsTrue result ↔ (decider self.now ≡ decider other.now) }
    {
        match (self.value, other.value) {
            (Some(value), Some(other_value)) => {
                value == other_value && are_equal(self.prefix, other.prefix)
            }
            (None, None) => true,
            (Some(_), None) | (None, Some(_)) => false,
        }
    }
}

/// Whether the prefixes are the same.
pub(crate) fn are_equal(prefix: Prefix, other: Prefix) -> bool
    ensures { IsTrue result ↔ (prefix ≡ other) }
{
    prefix.address().0 == other.address().0 && prefix.length() == other.length()
}

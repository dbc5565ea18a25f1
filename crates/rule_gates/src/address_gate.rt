ghost use Rattle.std.specs.Prelude.{◌<◌};

use crate::Interval;
use fw_rule::Family;

/// What is told of the addresses that a rule asks for.
#[derive(Clone, Copy)]
pub(crate) struct AddressGate {
    /// A word of each of them is one of these numbers.
    pub(crate) word: ChosenWord,
    /// Each of them is of this version.
    pub(crate) family: Family,
    /// Each address of which this is true is one of them.
    pub(crate) is_exact: bool,
}

/// One word of an address, and the numbers that it may be.
#[derive(Clone, Copy)]
pub(crate) struct ChosenWord {
    /// Which word; word 0 is the last one.
    pub(crate) place: u8,
    pub(crate) numbers: Interval,
    ghost within: { place < 4 },
}

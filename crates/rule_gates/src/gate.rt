ghost use Rattle.std.specs.Prelude.{◌≡◌, ◌<◌};

use crate::Interval;
use crate::address_gate::ChosenWord;
use fw_rule::Family;

/// What can be told of a rule by a few comparisons: a packet whose key it doesn't admit has nothing to do
/// with the rule. It takes 40 bytes.
#[derive(Clone, Copy, PartialEq, Eq)]
pub struct Gate {
    /// The numbers that the chosen word of the source address may be.
    pub(crate) source: Interval,
    /// The same of the destination address.
    pub(crate) destination: Interval,
    /// The numbers that the source port may be.
    pub(crate) source_ports: Interval,
    /// Those that the destination port may be.
    pub(crate) destination_ports: Interval,
    /// Which word of the source address is chosen; word 0 is its last one, and all of an IPv4 address.
    pub(crate) source_word: u8,
    /// Which one of the destination address.
    pub(crate) destination_word: u8,
    /// The protocol by its number; 0 stands for every protocol.
    pub(crate) protocol: u8,
    /// The version of IP.
    pub(crate) family: Family,
    /// It tells all: the rule looks nothing up, and its body holds of each packet whose key is admitted.
    pub(crate) is_exact: bool,
    ghost chosen: { (source_word < 4) × (destination_word < 4) },
}

impl Gate {
    /// The chosen word of the source address, and its numbers.
    pub(crate) fn source(&self) -> ChosenWord
        ensures place { result.place ≡ self.now.source_word }
        ensures numbers { result.numbers ≡ self.now.source }
    {
        ChosenWord {
            place: self.source_word,
            numbers: self.source,
        }
    }

    /// Those of the destination address.
    pub(crate) fn destination(&self) -> ChosenWord
        ensures place { result.place ≡ self.now.destination_word }
        ensures numbers { result.numbers ≡ self.now.destination }
    {
        ChosenWord {
            place: self.destination_word,
            numbers: self.destination,
        }
    }
}

/// What is told of the ports that a rule asks for.
#[derive(Clone, Copy)]
pub(crate) struct PortGate {
    /// Each of them is one of these numbers.
    pub(crate) numbers: Interval,
    /// Each of these numbers is one of them, and that of no port where the rule asks for no port.
    pub(crate) is_exact: bool,
}

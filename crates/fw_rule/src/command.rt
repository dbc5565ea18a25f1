use crate::{Items, RuleDraft, Setting, TableCommand};
use fw_base::{Addr, Name};

/// A command of a script (ipfw(8), "SYNOPSIS").
#[derive(Drop)]
pub enum Command {
    Add(RuleDraft),
    /// The rules of these numbers, each 1 to 65535.
    Delete(Items<u16>),
    /// The rules of this set, 0 to 31.
    DeleteSet(u8),
    Flush,
    /// The counters of the rules of these numbers, each 1 to 65535; of all where none is named.
    Zero(Items<u16>),
    ListRules,
    /// Disables the sets whose bits are set in the one and then enables those of the other.
    SetMask { disable: u32, enable: u32 },
    /// Moves the rules of one set, 0 to 31, into another.
    MoveSet { from: u8, to: u8 },
    /// Moves the rules of a number, 1 to 65535, into a set, 0 to 31.
    MoveRule { number: u16, to: u8 },
    /// Exchanges two sets, 0 to 31.
    SwapSets { first: u8, second: u8 },
    Table(Name, TableCommand),
    /// Changes one setting, to a value in its range.
    Sysctl { setting: Setting, value: u32 },
    /// Adds to the host's own addresses.
    Local(Items<Addr>),
}

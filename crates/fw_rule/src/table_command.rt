use fw_base::{Name, Prefix};

/// What is done with a table (ipfw(8), "LOOKUP TABLES").
#[derive(Drop)]
pub enum TableCommand {
    Create(TableType),
    Destroy,
    /// Adds a key with its value.
    Add(Key, u32),
    Remove(Key),
    /// Removes every key.
    Clear,
    SwapWith(Name),
    ListEntries,
}

/// What a table's keys are.
#[derive(Clone, Copy, Debug)]
pub enum TableType {
    /// Prefixes.
    Addresses,
    /// Whole numbers.
    Numbers,
}

/// A key of a table.
#[derive(Clone, Copy)]
pub enum Key {
    Net(Prefix),
    Number(u32),
}

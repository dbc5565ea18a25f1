use crate::{AddrTable, NumberTable};

/// A lookup table of one of the two kinds.
#[derive(Clone, Drop)]
pub enum Table {
    /// A table of prefixes.
    Addresses(AddrTable),
    /// A table of numbers.
    Numbers(NumberTable),
}

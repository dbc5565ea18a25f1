/// Where a run of several threads can be held, by tests. Its calls answer nothing. Lanes and records
/// count from 1.
pub trait Gate {
    /// The lane is about to take this record.
    fn before(&self, lane: u32, at: u64);

    /// The lane judges this record, and is inside the lock.
    fn inside(&self, lane: u32, at: u64);

    /// The operator is about to commit the command of this line of the script.
    fn operator(&self, line: u32);
}

/// A gate that holds nobody.
#[derive(Clone, Copy)]
pub struct FreeGate;

impl Gate for FreeGate {
    fn before(&self, _lane: u32, _at: u64) {}

    fn inside(&self, _lane: u32, _at: u64) {}

    fn operator(&self, _line: u32) {}
}

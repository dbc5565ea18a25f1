/// Columns along seconds, by which a journal is shown: equally many seconds each, one behind the
/// other.
#[derive(Clone, Copy)]
pub struct JournalColumns {
    /// The second at which the first column begins.
    pub first: u32,
    /// How many seconds each column has.
    pub seconds: u32,
    /// How many columns there are.
    pub count: u32,
}

/// What the states were asked in a column's seconds.
#[derive(Clone, Copy)]
pub(crate) struct Column {
    pub(crate) asks: u64,
    /// How many of the asks made a state.
    pub(crate) made: u64,
}

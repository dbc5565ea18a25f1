use command_words::Mode;

/// How captures are to be replayed, and what the report is to have.
#[derive(Clone, Copy, Drop)]
pub(crate) struct Manner {
    pub(crate) mode: Mode,
    /// Whether the report has the journal.
    pub(crate) journal: bool,
    /// For how many verdicts each capture's lane has a cache, if it has one.
    pub(crate) cache: Option<u32>,
}

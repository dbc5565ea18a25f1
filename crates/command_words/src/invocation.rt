use crate::capture_word::CaptureWord;

/// What the words of a command name. The names are lent from the words.
#[derive(Drop)]
pub enum Invocation<'a> {
    /// `serial` or `live`: captures that are replayed beside a script.
    Replay {
        mode: Mode,
        /// Whether the report has the journal.
        journal: bool,
        /// For how many verdicts each lane has a cache, 1 to 65,536, if it has one.
        cache: Option<u32>,
        /// The script's name, which isn't empty.
        script: &'a [u8],
        /// 1 to 16 captures, in the order of the words.
        captures: Vec<CaptureWord<'a>>,
    },
    /// `load`: the load of so many records, 1 to 1,000,000.
    Load(u32),
    /// `audit`: whether a report is one of these captures beside this script.
    Audit {
        /// The report's name, which isn't empty.
        report: &'a [u8],
        /// The script's name, which isn't empty.
        script: &'a [u8],
        /// 1 to 16 captures, in the order of the words.
        captures: Vec<CaptureWord<'a>>,
    },
}

/// How captures are replayed beside a script.
#[derive(Clone, Copy, Debug)]
pub enum Mode {
    /// One record after another, in one thread.
    Serial,
    /// Each capture by a thread of its own, while the script's live lines are carried out.
    Live,
}

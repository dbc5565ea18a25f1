use crate::CaptureEnd;
use fw_base::Name;
use fw_rule::Items;
use rule_edits::ApplyFault;

/// How the captures of a run ended, in the order of the words, and the answers to lines of the script, in
/// the order of the lines.
#[derive(Drop)]
pub struct Ends {
    pub captures: Items<CaptureEnd>,
    pub answers: Items<LineAnswer>,
}

/// The answer to a line of a script.
#[derive(Drop)]
pub struct LineAnswer {
    /// From 1.
    pub line: u32,
    pub answer: Answer,
}

/// How a line of a script is answered that is refused, or that asks for a listing.
#[derive(Drop)]
pub enum Answer {
    /// The command is refused, for this reason.
    Refused(ApplyFault),
    /// The report lists the rules of that edition, from 1, or the entries of its table of that name.
    Listed { edition: u64, table: Option<Name> },
}

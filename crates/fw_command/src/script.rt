use fw_rule::{Command, Items};

/// The commands of a script in the order of its lines.
#[derive(Drop)]
pub struct Script {
    /// Those before `live`, or all where there is no `live`.
    pub before: Items<Line>,
    /// The line of `live`, from 1, where it stands.
    pub live_at: Option<u32>,
    /// What stands behind `live`: at most 4,096 commands, and any `after` between them.
    pub live: Items<Step>,
}

/// A command, and the line of the script where it stands.
#[derive(Drop)]
pub struct Line {
    /// From 1.
    pub line: u32,
    pub command: Command,
}

/// What happens behind `live`.
#[derive(Drop)]
pub enum Step {
    /// The command is run.
    Run(Line),
    /// So many packets go first, 0 to 33,554,432.
    After(u64),
}

/// How the packets of a run go in between the commands of its script.
#[derive(Clone, Copy)]
pub enum Pace {
    /// One after the other: `after` says behind how many packets the next command stands.
    Serial,
    /// While the commands run. There is no `after`.
    Live,
}

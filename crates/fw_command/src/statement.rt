use fw_rule::Command;

/// What a line of a script says.
#[derive(Drop)]
pub enum Statement {
    /// Nothing: the line has no word.
    Nothing,
    Order(Command),
    Live,
    /// `after` in this column, and how many packets.
    After { column: u32, count: u64 },
}

/// Where a line of a script stands.
#[derive(Clone, Copy)]
pub(crate) struct Place {
    /// Its number, from 1.
    pub line: u32,
    /// The line of `live`, where it stands on an earlier one.
    pub live: Option<u32>,
    /// How many commands stand behind `live` on earlier lines.
    pub ran: u32,
}

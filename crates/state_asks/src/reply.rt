use crate::RuleRef;

/// What the states answer. `Found` and `NotFound` answer a lookup, the others an install.
#[derive(Clone, Copy, Debug, PartialEq, Eq)]
pub enum Reply {
    /// A live state matches; the packet goes this way, and the state was made by this rule.
    Found(Way, RuleRef),
    NotFound,
    /// A state was made.
    Created,
    /// A live state of that name matches the flow already; nothing changed.
    Exists,
    /// So many live states of the rule have the same parameter, and the limit isn't above it.
    LimitReached(u32),
    /// So many live states are there, and `dyn_max` isn't above it.
    TableFull(u32),
}

/// In which direction of a state a packet goes.
#[derive(Clone, Copy, Debug, PartialEq, Eq)]
pub enum Way {
    /// As the packet that made the state.
    Forward,
    /// The other way.
    Reverse,
}

/// Rule 65535, which each list ends with (ipfw(8)).
pub const LAST_RULE: RuleRef = RuleRef {
    id: 0,
    number: 65_535,
};

/// A rule, as a state and a verdict name it.
#[derive(Clone, Copy, Debug, PartialEq, Eq, Hash)]
pub struct RuleRef {
    /// Its identity: the place of its `add` among all, from 1; 0 for rule 65535.
    pub id: u32,
    /// Its number, 1 to 65535.
    pub number: u16,
}

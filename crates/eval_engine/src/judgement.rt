use state_asks::RuleRef;

/// Why the deciding rule decided.
#[derive(Clone, Copy, Debug, PartialEq, Eq)]
pub enum Cause {
    /// Its action ends the search.
    Rule,
    /// So many states were counted, and the rule's `limit` isn't above it.
    Limit(u32),
    /// So many states were there, and `dyn_max` isn't above it.
    Full(u32),
}

/// What an evaluation comes to.
#[derive(Clone, Copy, Debug, PartialEq, Eq)]
pub struct Judgement {
    /// The number of the edition whose rules were evaluated, from 1.
    pub edition: u64,
    pub verdict: Verdict,
    /// The deciding rule.
    pub rule: RuleRef,
    pub cause: Cause,
}

/// What happens to a packet (ipfw(8), "RULE ACTIONS").
#[derive(Clone, Copy, Debug, PartialEq, Eq, Hash)]
pub enum Verdict {
    /// It is let through.
    Allow,
    /// It is dropped.
    Deny,
    /// It is dropped, and a TCP reset is due.
    Reset,
    /// It is dropped, and an ICMP unreachable message of this code is due (RFC 792).
    Unreach(u8),
}

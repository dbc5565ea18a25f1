use fw_base::Name;

/// What a rule does with a packet that it holds of (ipfw(8), "RULE ACTIONS").
#[derive(Clone, Debug, Drop)]
pub enum Action {
    /// The packet is let through; the search ends.
    Allow,
    /// The packet is dropped; the search ends.
    Deny,
    /// The packet is dropped, and a TCP reset is due; the search ends.
    Reset,
    /// The packet is dropped, and an ICMP unreachable message of this code is due; the search ends.
    Unreach(u8),
    /// The packet is counted; the search goes on.
    Count,
    /// The search goes on at the first later rule numbered so or higher; 1 to 65535.
    SkipTo(u16),
    /// The search goes on at the first rule numbered so or higher, and comes back; 1 to 65535.
    Call(u16),
    /// The search goes on behind the last `Call`.
    Return,
    /// The packet is looked up among the dynamic states of this flow name; among those of every name
    /// where there is none, which is written `:any`. Such a rule has no body.
    CheckState(Option<Name>),
}

use fw_rule::LimitMask;
use packet_headers::Flow;
use state_asks::RuleRef;

/// A dynamic state (ipfw(8), "STATEFUL FIREWALL").
#[derive(Clone, Copy, Debug, PartialEq, Eq)]
pub struct State {
    /// The flow of the packet that made it.
    pub flow: Flow,
    /// The rule that made it.
    pub rule: RuleRef,
    /// The limit that it was made under, of `limit`.
    pub limit: Option<(LimitMask, u16)>,
    /// The number of its flow name.
    pub name: u8,
    /// It lives while the clock is below this second, which may pass 2^32.
    pub expiry: u64,
    /// The TCP flags seen in its own direction: FIN 1, SYN 2, RST 4 (RFC 9293 section 3.1).
    pub forward: u8,
    /// Those seen the other way.
    pub reverse: u8,
}

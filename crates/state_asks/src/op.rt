ghost use Rattle.std.specs.Prelude.{◌≡◌};
ghost use Rattle.state_asks.specs.Asked.{asked_second};
ghost use Rattle.state_asks.specs.Flags.{asked_flags};

use crate::RuleRef;
use fw_rule::LimitMask;
use packet_headers::Flow;

/// What the states are asked for a packet: its flow, its TCP flags, and its second, which raises the
/// clock. Of the flags FIN 1, SYN 2 and RST 4 are kept (RFC 9293 section 3.1), the others passed over.
#[derive(Clone, Copy, Debug, PartialEq, Eq)]
pub enum Op {
    /// Is there a state for it, of this flow name?
    Lookup {
        flags: u8,
        flow: Flow,
        second: u32,
        name: FlowName,
    },
    /// A rule with `keep-state` or, where there is a limit, with `limit` makes a state for it.
    Install {
        flags: u8,
        flow: Flow,
        second: u32,
        rule: RuleRef,
        limit: Option<(LimitMask, u16)>,
        name: u8,
    },
}

impl Op {
    /// The flags with which is asked.
    #[inline]
    pub fn flags(&self) -> u8
        ensures { result ≡ asked_flags self.now }
    {
        match self {
            Op::Lookup { flags, .. } | Op::Install { flags, .. } => *flags,
        }
    }

    /// The second of the ask.
    #[inline]
    pub fn second(&self) -> u32
        ensures { result ≡ asked_second self.now }
    {
        match self {
            Op::Lookup { second, .. } | Op::Install { second, .. } => *second,
        }
    }
}

/// The flow name that a lookup asks for (ipfw(8), "STATEFUL FIREWALL").
#[derive(Clone, Copy, Debug, PartialEq, Eq)]
pub enum FlowName {
    /// `:any`, every name.
    Any,
    /// One name, by its number among those of the configuration; 0 is `default`.
    Named(u8),
}

use super::Turn;
use crate::drafts::{Deed, Parts};
use eval_engine::{Cause, Verdict};
use fw_base::Addr;
use fw_rule::LimitMask;
use packet_headers::Flow;
use state_asks::{FlowName, Op, Reply, RuleRef, Way};
use test_frames::{DATAGRAM, FIN_ACK, FRAGMENT, SIX, SYN};

/// A row: the rules by number, set and deed, the packet, the asks with their replies; then the judgement,
/// and how many packets each rule counted, in list order.
pub struct Row {
    pub name: &'static str,
    pub rules: &'static [(u16, u8, Deed)],
    pub packet: &'static [u8],
    pub turns: &'static [Turn],
    pub verdict: Verdict,
    pub rule: RuleRef,
    pub cause: Cause,
    pub packets: &'static [u64],
}

const SYN_FLOW: Flow = Flow {
    source: Addr(0x0a00_0001),
    destination: Addr(0xc000_0201),
    source_port: 1025,
    destination_port: 80,
    protocol: 6,
};

const DATAGRAM_FLOW: Flow = Flow {
    source: Addr(0x0a00_0001),
    destination: Addr(0xc000_0201),
    source_port: 5,
    destination_port: 6,
    protocol: 17,
};

/// Rows without an ask.
pub const COUNTED: &[Row] = &[
    Row {
        name: "skipto_own_number_skips_nothing",
        rules: &[
            (100, 0, Deed::Count),
            (100, 0, Deed::SkipTo(100)),
            (100, 0, Deed::Allow),
        ],
        packet: SYN,
        turns: &[],
        verdict: Verdict::Allow,
        rule: RuleRef { id: 3, number: 100 },
        cause: Cause::Rule,
        packets: &[1, 1, 1, 0],
    },
    Row {
        name: "skipto_goes_on_behind",
        rules: &[
            (100, 0, Deed::SkipTo(300)),
            (200, 0, Deed::Allow),
            (300, 0, Deed::Count),
        ],
        packet: SYN,
        turns: &[],
        verdict: Verdict::Deny,
        rule: RuleRef {
            id: 0,
            number: 65535,
        },
        cause: Cause::Rule,
        packets: &[1, 0, 1, 1],
    },
    Row {
        name: "call_stack_full_and_empty",
        rules: &[
            (100, 0, Deed::Count),
            (200, 0, Deed::Call(100)),
            (300, 0, Deed::Return),
        ],
        packet: SYN,
        turns: &[],
        verdict: Verdict::Deny,
        rule: RuleRef {
            id: 0,
            number: 65535,
        },
        cause: Cause::Rule,
        packets: &[17, 17, 17, 1],
    },
    Row {
        name: "return_goes_past_the_call",
        rules: &[
            (100, 0, Deed::Call(300)),
            (100, 0, Deed::Count),
            (200, 0, Deed::Allow),
            (300, 0, Deed::Return),
        ],
        packet: SYN,
        turns: &[],
        verdict: Verdict::Allow,
        rule: RuleRef { id: 3, number: 200 },
        cause: Cause::Rule,
        packets: &[1, 0, 1, 1, 0],
    },
    Row {
        name: "rules_that_call_each_other",
        rules: &[(100, 0, Deed::Call(200)), (200, 0, Deed::Call(100))],
        packet: SYN,
        turns: &[],
        verdict: Verdict::Deny,
        rule: RuleRef {
            id: 0,
            number: 65535,
        },
        cause: Cause::Rule,
        packets: &[9, 9, 1],
    },
    Row {
        name: "disabled_rule_is_passed_over",
        rules: &[(100, 5, Deed::Allow), (200, 0, Deed::Count)],
        packet: SIX,
        turns: &[],
        verdict: Verdict::Deny,
        rule: RuleRef {
            id: 0,
            number: 65535,
        },
        cause: Cause::Rule,
        packets: &[0, 1, 1],
    },
];

/// Rows with dynamic states.
pub const STATEFUL: &[Row] = &[
    Row {
        name: "tcp_state_is_made",
        rules: &[(100, 0, Deed::Check(b'1')), (200, 0, Deed::Keep(b'1'))],
        packet: SYN,
        turns: &[
            Turn {
                op: Op::Lookup {
                    flow: SYN_FLOW,
                    flags: 2,
                    second: 9,
                    name: FlowName::Named(1),
                },
                reply: Reply::NotFound,
            },
            Turn {
                op: Op::Install {
                    flow: SYN_FLOW,
                    flags: 2,
                    second: 9,
                    rule: RuleRef { id: 2, number: 200 },
                    limit: None,
                    name: 1,
                },
                reply: Reply::Created,
            },
        ],
        verdict: Verdict::Allow,
        rule: RuleRef { id: 2, number: 200 },
        cause: Cause::Rule,
        packets: &[0, 1, 0],
    },
    Row {
        name: "tcp_state_is_found",
        rules: &[(100, 0, Deed::Check(b'1')), (200, 0, Deed::Keep(b'1'))],
        packet: SYN,
        turns: &[Turn {
            op: Op::Lookup {
                flow: SYN_FLOW,
                flags: 2,
                second: 9,
                name: FlowName::Named(1),
            },
            reply: Reply::Found(Way::Reverse, RuleRef { id: 2, number: 200 }),
        }],
        verdict: Verdict::Allow,
        rule: RuleRef { id: 2, number: 200 },
        cause: Cause::Rule,
        packets: &[0, 1, 0],
    },
    Row {
        name: "ask_has_three_flags",
        rules: &[(100, 0, Deed::Check(b'1')), (200, 0, Deed::Keep(b'1'))],
        packet: FIN_ACK,
        turns: &[Turn {
            op: Op::Lookup {
                flow: SYN_FLOW,
                flags: 1,
                second: 9,
                name: FlowName::Named(1),
            },
            reply: Reply::Found(Way::Forward, RuleRef { id: 2, number: 200 }),
        }],
        verdict: Verdict::Allow,
        rule: RuleRef { id: 2, number: 200 },
        cause: Cause::Rule,
        packets: &[0, 1, 0],
    },
    Row {
        name: "names_keep_states_apart",
        rules: &[(100, 0, Deed::Check(b'1')), (200, 0, Deed::Keep(b'2'))],
        packet: DATAGRAM,
        turns: &[
            Turn {
                op: Op::Lookup {
                    flow: DATAGRAM_FLOW,
                    flags: 0,
                    second: 9,
                    name: FlowName::Named(1),
                },
                reply: Reply::NotFound,
            },
            Turn {
                op: Op::Lookup {
                    flow: DATAGRAM_FLOW,
                    flags: 0,
                    second: 9,
                    name: FlowName::Named(2),
                },
                reply: Reply::NotFound,
            },
            Turn {
                op: Op::Install {
                    flow: DATAGRAM_FLOW,
                    flags: 0,
                    second: 9,
                    rule: RuleRef { id: 2, number: 200 },
                    limit: None,
                    name: 2,
                },
                reply: Reply::Exists,
            },
        ],
        verdict: Verdict::Allow,
        rule: RuleRef { id: 2, number: 200 },
        cause: Cause::Rule,
        packets: &[0, 1, 0],
    },
    Row {
        name: "check_state_any",
        rules: &[(100, 0, Deed::CheckAny), (200, 0, Deed::Keep(b'2'))],
        packet: DATAGRAM,
        turns: &[
            Turn {
                op: Op::Lookup {
                    flow: DATAGRAM_FLOW,
                    flags: 0,
                    second: 9,
                    name: FlowName::Any,
                },
                reply: Reply::NotFound,
            },
            Turn {
                op: Op::Install {
                    flow: DATAGRAM_FLOW,
                    flags: 0,
                    second: 9,
                    rule: RuleRef { id: 2, number: 200 },
                    limit: None,
                    name: 1,
                },
                reply: Reply::Created,
            },
        ],
        verdict: Verdict::Allow,
        rule: RuleRef { id: 2, number: 200 },
        cause: Cause::Rule,
        packets: &[0, 1, 0],
    },
    Row {
        name: "limit_is_reached",
        rules: &[(100, 0, Deed::AllowOf(Parts::Limit(b'1')))],
        packet: SYN,
        turns: &[
            Turn {
                op: Op::Lookup {
                    flow: SYN_FLOW,
                    flags: 2,
                    second: 9,
                    name: FlowName::Named(1),
                },
                reply: Reply::NotFound,
            },
            Turn {
                op: Op::Install {
                    flow: SYN_FLOW,
                    flags: 2,
                    second: 9,
                    rule: RuleRef { id: 1, number: 100 },
                    limit: Some((LimitMask::SrcAddr, 2)),
                    name: 1,
                },
                reply: Reply::LimitReached(2),
            },
        ],
        verdict: Verdict::Deny,
        rule: RuleRef { id: 1, number: 100 },
        cause: Cause::Limit(2),
        packets: &[0, 0],
    },
    Row {
        name: "table_is_full",
        rules: &[(100, 0, Deed::Keep(b'1'))],
        packet: DATAGRAM,
        turns: &[
            Turn {
                op: Op::Lookup {
                    flow: DATAGRAM_FLOW,
                    flags: 0,
                    second: 9,
                    name: FlowName::Named(1),
                },
                reply: Reply::NotFound,
            },
            Turn {
                op: Op::Install {
                    flow: DATAGRAM_FLOW,
                    flags: 0,
                    second: 9,
                    rule: RuleRef { id: 1, number: 100 },
                    limit: None,
                    name: 1,
                },
                reply: Reply::TableFull(1),
            },
        ],
        verdict: Verdict::Deny,
        rule: RuleRef { id: 1, number: 100 },
        cause: Cause::Full(1),
        packets: &[0, 0],
    },
    Row {
        name: "fragment_has_no_flow",
        rules: &[(100, 0, Deed::Keep(b'1'))],
        packet: FRAGMENT,
        turns: &[],
        verdict: Verdict::Deny,
        rule: RuleRef {
            id: 0,
            number: 65535,
        },
        cause: Cause::Rule,
        packets: &[0, 1],
    },
    Row {
        name: "ipv6_has_no_flow",
        rules: &[(100, 0, Deed::Check(b'1')), (100, 0, Deed::Keep(b'1'))],
        packet: SIX,
        turns: &[],
        verdict: Verdict::Deny,
        rule: RuleRef {
            id: 0,
            number: 65535,
        },
        cause: Cause::Rule,
        packets: &[0, 0, 1],
    },
    Row {
        name: "found_within_a_call",
        rules: &[
            (100, 0, Deed::Call(300)),
            (200, 0, Deed::Keep(b'2')),
            (300, 0, Deed::Check(b'1')),
            (400, 0, Deed::CountKeep(b'1')),
            (500, 0, Deed::Return),
        ],
        packet: SYN,
        turns: &[
            Turn {
                op: Op::Lookup {
                    flow: SYN_FLOW,
                    flags: 2,
                    second: 9,
                    name: FlowName::Named(2),
                },
                reply: Reply::Found(Way::Forward, RuleRef { id: 4, number: 400 }),
            },
            Turn {
                op: Op::Install {
                    flow: SYN_FLOW,
                    flags: 2,
                    second: 9,
                    rule: RuleRef { id: 2, number: 200 },
                    limit: None,
                    name: 1,
                },
                reply: Reply::Created,
            },
        ],
        verdict: Verdict::Allow,
        rule: RuleRef { id: 2, number: 200 },
        cause: Cause::Rule,
        packets: &[1, 1, 0, 1, 1, 0],
    },
    Row {
        name: "names_outlive_a_return",
        rules: &[
            (100, 0, Deed::Call(300)),
            (200, 0, Deed::Keep(b'1')),
            (300, 0, Deed::Check(b'1')),
            (400, 0, Deed::Return),
        ],
        packet: SYN,
        turns: &[
            Turn {
                op: Op::Lookup {
                    flow: SYN_FLOW,
                    flags: 2,
                    second: 9,
                    name: FlowName::Named(1),
                },
                reply: Reply::NotFound,
            },
            Turn {
                op: Op::Install {
                    flow: SYN_FLOW,
                    flags: 2,
                    second: 9,
                    rule: RuleRef { id: 2, number: 200 },
                    limit: None,
                    name: 1,
                },
                reply: Reply::Created,
            },
        ],
        verdict: Verdict::Allow,
        rule: RuleRef { id: 2, number: 200 },
        cause: Cause::Rule,
        packets: &[1, 1, 0, 1, 0],
    },
    Row {
        name: "lookup_before_the_body",
        rules: &[
            (100, 0, Deed::DenyOf(Parts::KeepTcp(b'1'))),
            (200, 0, Deed::Allow),
        ],
        packet: DATAGRAM,
        turns: &[Turn {
            op: Op::Lookup {
                flow: DATAGRAM_FLOW,
                flags: 0,
                second: 9,
                name: FlowName::Named(1),
            },
            reply: Reply::NotFound,
        }],
        verdict: Verdict::Allow,
        rule: RuleRef { id: 2, number: 200 },
        cause: Cause::Rule,
        packets: &[0, 1, 0],
    },
];

ghost use Rattle.fw_rule.specs.Settings.{IsLifetime};

use bench_asks::flow;
use fw_rule::{LimitMask, MOST_STATES, Settings};
use state_asks::{Op, RuleRef};

const RULE: RuleRef = RuleRef { id: 1, number: 100 };

/// As many states as there may be, and so many seconds for datagrams.
pub fn settings(udp: u32) -> Settings
    requires { IsLifetime udp }
{
    Settings {
        ack: 300,
        syn: 20,
        fin: 1,
        rst: 1,
        udp,
        short: 5,
        max: MOST_STATES,
        keep: false,
    }
}

/// A state for a datagram of that host, under a limit of its destination, or under none.
pub fn install(host: u32, second: u32, limit: Option<u16>) -> Op {
    Op::Install {
        flow: flow(host),
        flags: 0,
        second,
        rule: RULE,
        limit: limit.map(|most| (LimitMask::DstAddr, most)),
        name: 0,
    }
}

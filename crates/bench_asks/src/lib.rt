//! What the benches ask the states.
//!
//! Tests: none.
#![tactic(auto)]

ghost use Rattle.std.specs.Prelude.{ℕ, List};
ghost use Rattle.state_asks.specs.Flags.{HasKeptFlags};
ghost use Rattle.state_journal.specs.Journal.{NamesRuleOf};

use fw_base::Addr;
use packet_headers::Flow;
use state_asks::{FlowName, Op};

/// A datagram of that host to one name server.
pub fn flow(host: u32) -> Flow {
    Flow {
        source: Addr(host),
        destination: Addr(0xc000_0201),
        source_port: 1024,
        destination_port: 53,
        protocol: 17,
    }
}

/// One of a thousand hosts, whose turn it is at this record.
pub fn host_of(record: u32) -> u32 {
    0x0a00_0000 + record % 1000
}

/// Whether there is a state of that name for a datagram of that host.
pub fn lookup(host: u32, second: u32, name: FlowName) -> Op
    ensures rule { (rules : List ℕ) → NamesRuleOf rules result }
    ensures flags { HasKeptFlags result }
{
    Op::Lookup {
        flow: flow(host),
        flags: 0,
        second,
        name,
    }
}

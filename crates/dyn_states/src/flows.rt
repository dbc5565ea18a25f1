ghost use Rattle.std.specs.Prelude.{◌≡◌};
ghost use Rattle.dyn_states.specs.Flows as flows;

use packet_headers::Flow;
use state_asks::Way;

/// Whether the two flows are one.
pub(crate) fn is_same(a: &Flow, b: &Flow) -> bool
    ensures { result ≡ flows.same_flow a.now b.now }
{
    a == b
}

/// The flow of a packet that goes the other way.
pub(crate) fn reversed(flow: &Flow) -> Flow
    ensures { result ≡ flows.reverse_flow flow.now }
{
    Flow {
        protocol: flow.protocol,
        source: flow.destination,
        source_port: flow.destination_port,
        destination: flow.source,
        destination_port: flow.source_port,
    }
}

/// Whether a state of the one flow matches a packet of the other, in either direction.
pub(crate) fn is_matching(own: &Flow, asked: &Flow) -> bool
    ensures { result ≡ flows.matches_flow own.now asked.now }
{
    is_same(own, asked) || is_same(own, &reversed(asked))
}

/// In which direction of a state of the one flow a packet of the other goes.
pub(crate) fn way_of(own: &Flow, asked: &Flow) -> Way
    ensures { result ≡ flows.way_of own.now asked.now }
{
    if is_same(own, asked) {
        Way::Forward
    } else {
        Way::Reverse
    }
}

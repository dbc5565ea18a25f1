//! What each body of the states does alike: which states an ask considers, how a packet changes one, and
//! how a publication changes them.
ghost use Rattle.std.specs.Prelude.{◌≡◌, ◌≤◌, vec_len, vec_capacity, filter, map};
ghost use Rattle.fw_rule.specs.Values.{values_of};
ghost use Rattle.dyn_states.specs.StateObject as object;

use crate::State;
use crate::flows::is_matching;
use crate::lifetimes::lifetime;
use fw_rule::{LimitMask, Settings};
use packet_headers::Flow;
use state_asks::{Facts, FlowName, LAST_RULE, Way, kept_flags};

/// Whether the flow name asked for is the state's.
fn is_named(asked: FlowName, name: u8) -> bool
    ensures { result ≡ object.is_name_asked asked name }
{
    match asked {
        FlowName::Any => true,
        FlowName::Named(number) => number == name,
    }
}

/// Whether a lookup considers the state.
pub(crate) fn is_considered(state: &State, flow: &Flow, name: FlowName) -> bool
    ensures { result ≡ object.considers flow.now name state.now }
{
    is_named(name, state.name) && is_matching(&state.flow, flow)
}

/// The parameter of the flow that a limit counts by.
pub(crate) fn parameter(mask: LimitMask, flow: &Flow) -> u32
    ensures { result ≡ object.parameter mask flow.now }
{
    match mask {
        LimitMask::SrcAddr => flow.source.0,
        LimitMask::SrcPort => u32::from(flow.source_port),
        LimitMask::DstAddr => flow.destination.0,
        LimitMask::DstPort => u32::from(flow.destination_port),
    }
}

/// The state as it lives from now on.
pub(crate) fn renewed(settings: &Settings, clock: u32, state: State) -> State
    ensures { result ≡ object.renewed_state (values_of settings.now) clock state }
{
    let seconds = lifetime(settings, state.flow.protocol, state.forward, state.reverse);
    State {
        expiry: u64::from(clock) + u64::from(seconds),
        ..state
    }
}

/// The state with the flags of a packet that goes this way.
pub(crate) fn with_flags(way: Way, flags: u8, state: State) -> State
    ensures { result ≡ object.with_flags way flags state }
{
    match way {
        Way::Forward => State {
            forward: state.forward | kept_flags(flags),
            ..state
        },
        Way::Reverse => State {
            reverse: state.reverse | kept_flags(flags),
            ..state
        },
    }
}

/// Drops the states whose rule isn't one of these.
fn keep_ruled(states: &mut Vec<State>, rules: &[u32])
    ensures items { states.new.items ≡ filter (object.has_rule_among rules.now) states.old.items }
    ensures bound { vec_len states.new ≤ vec_len states.old }
    ensures capacity { vec_capacity states.new ≡ vec_capacity states.old }
{
    states.retain(|state| has_rule(rules, state));
}

/// Gives rule 65535 the states whose own rule isn't one of these.
fn hand_over(states: &mut [State], rules: &[u32])
    ensures { states.new ≡ map (object.handed_over rules.now) states.old }
{
    for place in 0..states.len() {
        states[place] = handed_over(rules, states[place]);
    }
}

/// Drops the states whose rule isn't in the publication or, where they are kept, gives them rule 65535.
pub(crate) fn take_over(states: &mut Vec<State>, facts: &Facts)
    ensures items { states.new.items
        ≡ object.states_after facts.now.settings.keep facts.now.rules states.old.items }
    ensures bound { vec_len states.new ≤ vec_len states.old }
    ensures capacity { vec_capacity states.new ≡ vec_capacity states.old }
{
    if facts.settings.keep {
        hand_over(states, facts.rules.as_slice());
        return;
    }
    keep_ruled(states, facts.rules.as_slice());
}

/// Whether the state's rule is one of these.
fn has_rule(rules: &[u32], state: &State) -> bool
    ensures { result ≡ object.has_rule_among rules.now state.now }
{
    rules.iter().any(|id| *id == state.rule.id)
}

/// The state under rule 65535 where its own rule isn't one of these.
fn handed_over(rules: &[u32], state: State) -> State
    ensures { result ≡ object.handed_over rules.now state }
{
    if has_rule(rules, &state) {
        state
    } else {
        State {
            rule: LAST_RULE,
            ..state
        }
    }
}

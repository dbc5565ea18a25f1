ghost use Rattle.std.specs.Prelude.{◌≡◌, ◌∷◌, [], flat_map, slice_index_or};
ghost use Rattle.std.specs.Fmt.{decimal};
ghost use Rattle.fw_base.specs.Addr.{address_text};
ghost use Rattle.rule_text.specs.Canonical.{spaced_text};
ghost use Rattle.fw_base.specs.Texts.{WritesText};
ghost use Rattle.state_texts.specs.StateTexts as text;

use dyn_states::{State, States};
use fw_base::{Addr, Failed, Name, Sink, write_pieces, write_text};
use itoa::Buffer;
use packet_headers::Flow;
use rule_text::{WriteFault, write_address, write_five_digits, write_protocol};

/// Writes an address and a port, each behind a space.
fn write_end<K: Sink>(out: &mut K, address: Addr, port: u16) -> Result<(), Failed>
    ensures { WritesText (K.state out.old) (K.state out.new)
        (spaced_text (address_text address.0 ∷ decimal port ∷ [])) result }
{
    let mut digits = Buffer::new();
    write_text(out, b" ")?;
    write_address(out, address)?;
    write_pieces(out, &[b" ", digits.format(port).as_bytes()])
}

/// Writes a flow, each part behind a space.
fn write_flow<K: Sink>(out: &mut K, flow: &Flow) -> Result<(), Failed>
    ensures { WritesText (K.state out.old) (K.state out.new) (text.flow_text flow.now) result }
{
    write_protocol(out, flow.protocol)?;
    write_end(out, flow.source, flow.source_port)?;
    write_end(out, flow.destination, flow.destination_port)
}

/// The flow name of that number; no bytes where there is none.
fn name_at(names: &[Name], name: u8) -> &[u8]
    ensures { result.now ≡ slice_index_or names.now name [] }
{
    match names.get(usize::from(name)) {
        Some(found) => found.bytes(),
        None => b"",
    }
}

/// Writes when a state expires, its flow name, and the line's end.
#[tactic(auto, unfolding(crate::specs::StateTexts::expiry_text))]
fn write_expiry<K: Sink>(out: &mut K, names: &[Name], state: &State) -> Result<(), Failed>
    ensures { WritesText (K.state out.old) (K.state out.new)
        (text.expiry_text names.now state.now) result }
{
    let mut digits = Buffer::new();
    let expiry = digits.format(state.expiry).as_bytes();
    if state.name == 0 {
        return write_pieces(out, &[b" expires ", expiry, b"\n"]);
    }
    let name = name_at(names, state.name);
    write_pieces(out, &[b" expires ", expiry, b" :", name, b"\n"])
}

/// Writes the line of a state.
fn write_state<K: Sink>(out: &mut K, names: &[Name], state: &State) -> Result<(), Failed>
    ensures { WritesText (K.state out.old) (K.state out.new)
        (text.state_line names.now state.now) result }
{
    write_five_digits(out, state.rule.number)?;
    write_flow(out, &state.flow)?;
    write_expiry(out, names, state)
}

/// Writes the line of the state that the slot holds, if it holds one.
#[tactic(auto, unfolding(crate::specs::StateTexts::slot_text))]
fn write_slot<K: Sink>(out: &mut K, names: &[Name], slot: &State) -> Result<(), Failed>
    ensures { WritesText (K.state out.old) (K.state out.new)
        (text.slot_text names.now slot.now) result }
{
    if slot.expiry == 0 {
        return write_text(out, b"");
    }
    write_state(out, names, slot)
}

/// Writes the lines of the states that the slots hold.
fn write_lines<K: Sink>(out: &mut K, names: &[Name], slots: &[State]) -> Result<(), Failed>
    ensures { WritesText (K.state out.old) (K.state out.new)
        (flat_map (text.slot_text names.now) slots.now) result }
{
    for slot in slots {
        write_slot(out, names, slot)?;
    }
    Ok(())
}

/// Writes the clock and the number of states, each on a line.
#[tactic(auto, unfolding(crate::specs::StateTexts::states_heading))]
fn write_heading<K: Sink>(out: &mut K, states: &States) -> Result<(), Failed>
    ensures { WritesText (K.state out.old) (K.state out.new)
        (text.states_heading states.now.object) result }
{
    let mut clock_digits = Buffer::new();
    let mut count_digits = Buffer::new();
    let clock = clock_digits.format(states.clock()).as_bytes();
    let count = count_digits.format(states.count()).as_bytes();
    write_pieces(out, &[b"clock ", clock, b"\nstates ", count, b"\n"])
}

fn write_section<K: Sink>(out: &mut K, names: &[Name], states: &States) -> Result<(), Failed>
    ensures { WritesText (K.state out.old) (K.state out.new)
        (text.states_text names.now states.now.object) result }
{
    write_heading(out, states)?;
    write_lines(out, names, states.slots())
}

/// Writes the clock, the number of states, and a line for each in order of making, with the flow names by
/// their numbers, of which one that isn't there has no bytes. It takes no memory. Where the sink fails, a front of the text was written.
pub fn write_states<K: Sink>(states: &States, names: &[Name], out: &mut K) -> Result<(), WriteFault>
    ensures { WritesText (K.state out.old) (K.state out.new)
        (text.states_text names.now states.now.object) result }
{
    write_section(out, names, states).map_err(|_| WriteFault)
}

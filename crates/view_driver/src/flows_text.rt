ghost use Rattle.std.specs.Prelude.{◌≡◌, ◌∷◌, [], length, flat_map};
ghost use Rattle.std.specs.Fmt.{decimal};
ghost use Rattle.fw_base.specs.Addr.{address_text};
ghost use Rattle.fw_base.specs.Texts.{WritesText};
ghost use Rattle.rule_text.specs.Address6Text.{address6_text};
ghost use Rattle.rule_text.specs.Canonical.{spaced_text};
ghost use Rattle.state_texts.specs.StateTexts.{flow_text};
ghost use Rattle.view_driver.specs.FlowsText as text;

use crate::moves_text::{NUMBER_WIDTH, write_number, write_spaces};
use fw_base::{Addr, Addr6, Failed, Sink, write_pieces, write_text};
use itoa::Buffer;
use packet_headers::Flow;
use report_flows::{AnyFlow, Flow6, FlowSpan};
use rule_text::{write_address, write_address6, write_protocol};

/// How many flows of a move are told at most; of the others it is told how many there are.
const MOST_FLOWS: usize = 10;

/// Writes an IPv4 address and a port, each behind a space.
fn write_end4<K: Sink>(out: &mut K, address: Addr, port: u16) -> Result<(), Failed>
    ensures { WritesText (K.state out.old) (K.state out.new)
        (spaced_text (address_text address.0 ∷ decimal port ∷ [])) result }
{
    let mut digits = Buffer::new();
    write_text(out, b" ")?;
    write_address(out, address)?;
    write_pieces(out, &[b" ", digits.format(port).as_bytes()])
}

/// Writes an IPv6 address and a port, each behind a space.
fn write_end6<K: Sink>(out: &mut K, address: Addr6, port: u16) -> Result<(), Failed>
    ensures { WritesText (K.state out.old) (K.state out.new)
        (spaced_text (address6_text address.0 ∷ decimal port ∷ [])) result }
{
    let mut digits = Buffer::new();
    write_text(out, b" ")?;
    write_address6(out, address)?;
    write_pieces(out, &[b" ", digits.format(port).as_bytes()])
}

/// Writes a flow of IPv4 as the report's states tell it: protocol, source and its port, destination and its port.
fn write_flow4<K: Sink>(out: &mut K, flow: &Flow) -> Result<(), Failed>
    ensures { WritesText (K.state out.old) (K.state out.new) (flow_text flow.now) result }
{
    write_protocol(out, flow.protocol)?;
    write_end4(out, flow.source, flow.source_port)?;
    write_end4(out, flow.destination, flow.destination_port)
}

/// Writes a flow of IPv6 in the same way.
fn write_flow6<K: Sink>(out: &mut K, flow: &Flow6) -> Result<(), Failed>
    ensures { WritesText (K.state out.old) (K.state out.new) (text.flow6_text flow.now) result }
{
    write_protocol(out, flow.protocol)?;
    write_end6(out, flow.source, flow.source_port)?;
    write_end6(out, flow.destination, flow.destination_port)
}

/// Writes a flow of either version, or that there is none.
#[tactic(auto, unfolding(crate::specs::FlowsText::any_flow_text))]
fn write_any_flow<K: Sink>(out: &mut K, flow: &Option<AnyFlow>) -> Result<(), Failed>
    ensures { WritesText (K.state out.old) (K.state out.new) (text.any_flow_text flow.now) result }
{
    match flow {
        Some(AnyFlow::Four(flow)) => write_flow4(out, flow),
        Some(AnyFlow::Six(flow)) => write_flow6(out, flow),
        None => write_text(out, b" no flow"),
    }
}

/// Writes the numbers of a flow below those of its move.
fn write_flow_numbers<K: Sink>(out: &mut K, told: &FlowSpan) -> Result<(), Failed>
    ensures { WritesText (K.state out.old) (K.state out.new) (text.flow_numbers told.now) result }
{
    write_number(out, told.span.records)?;
    write_spaces(out, NUMBER_WIDTH + 1)?;
    write_number(out, told.span.first)?;
    write_number(out, told.span.last)?;
    write_text(out, b"   ")
}

/// Writes a flow of a move, a line.
fn write_flow<K: Sink>(out: &mut K, told: &FlowSpan) -> Result<(), Failed>
    ensures { WritesText (K.state out.old) (K.state out.new) (text.flow_line told.now) result }
{
    write_flow_numbers(out, told)?;
    write_any_flow(out, &told.flow)?;
    write_text(out, b"\n")
}

/// Writes flows of a move, a line each.
fn write_told<K: Sink>(out: &mut K, flows: &[FlowSpan]) -> Result<(), Failed>
    ensures { WritesText (K.state out.old) (K.state out.new)
        (flat_map text.flow_line flows.now) result }
{
    for flow in flows {
        write_flow(out, flow)?;
    }
    Ok(())
}

/// How many records some flows have.
fn records_of(flows: &[FlowSpan]) -> u64
    ensures { result ≡ text.flow_records flows.now }
{
    let mut records: u64 = 0;
    for told in flows {
        records = records.saturating_add(told.span.records);
    }
    records
}

/// Writes how many flows there are besides those that were told, and how many records they have.
fn write_rest_line<K: Sink>(out: &mut K, rest: &[FlowSpan]) -> Result<(), Failed>
    ensures { WritesText (K.state out.old) (K.state out.new) (text.rest_line rest.now) result }
{
    let mut flows_digits = Buffer::new();
    let mut records_digits = Buffer::new();
    let flows = flows_digits.format(rest.len()).as_bytes();
    let records = records_digits.format(records_of(rest)).as_bytes();
    write_spaces(out, (NUMBER_WIDTH + 1) * 4)?;
    write_pieces(
        out,
        &[
            b"    and ",
            flows,
            b" flows more with ",
            records,
            b" records\n",
        ],
    )
}

/// Writes how many flows there are besides those that were told, where there are some.
#[tactic(auto, unfolding(crate::specs::FlowsText::rest_text))]
fn write_rest<K: Sink>(out: &mut K, rest: &[FlowSpan]) -> Result<(), Failed>
    ensures { WritesText (K.state out.old) (K.state out.new) (text.rest_text rest.now) result }
{
    if rest.is_empty() {
        return write_text(out, b"");
    }
    write_rest_line(out, rest)
}

/// How many flows of so many are told: all where only one would be left out.
#[tactic(auto, unfolding(crate::specs::FlowsText::told_count))]
fn told_count(flows: usize) -> usize
    ensures { result ≡ text.told_count flows }
{
    if flows <= MOST_FLOWS + 1 {
        flows
    } else {
        MOST_FLOWS
    }
}

/// Writes the flows of a move, a line each, and how many more there are.
pub(crate) fn write_flows<K: Sink>(out: &mut K, flows: &[FlowSpan]) -> Result<(), Failed>
    ensures { WritesText (K.state out.old) (K.state out.new) (text.flows_text flows.now) result }
{
    let (told, rest) = flows.split_at(told_count(flows.len()).min(flows.len()));
    write_told(out, told)?;
    write_rest(out, rest)
}

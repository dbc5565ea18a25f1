ghost use Rattle.std.specs.Prelude.{◌≡◌, ◌≤◌, ◌<◌, not, position, length, IfSome};
ghost use Rattle.std.specs.Int.{w32, from_be_bytes};
ghost use Rattle.std.specs.List.{prefix_len};
ghost use Rattle.std.specs.Option.{option_map};
ghost use Rattle.fw_base.specs.Name.{is_name_byte};
ghost use Rattle.report_reading.specs.Parts.{number_at};
ghost use Rattle.report_reading.specs.FlowTexts as spec;

use crate::parts::{behind, number};
use fw_base::{Addr, are_name_bytes};
use packet_headers::Flow;

fn is_name_byte(byte: u8) -> bool
    ensures { result ≡ is_name_byte byte }
{
    are_name_bytes(&[byte])
}

fn name_end(text: &[u8]) -> Option<usize>
    ensures found { result ≡ position (λ byte. not (is_name_byte byte)) text.now }
    ensures within { IfSome result (λ at. at < length text.now) }
{
    text.iter().position(|byte| !is_name_byte(*byte))
}

/// How many bytes that a name may have stand at the front.
#[tactic(auto, using(crate::proofs::NameLaws::length_to, crate::proofs::NameLaws::length_of_all))]
fn name_length(text: &[u8]) -> usize
    ensures value { result ≡ prefix_len is_name_byte text.now }
    ensures within { result ≤ length text.now }
{
    match name_end(text) {
        Some(at) => at,
        None => text.len(),
    }
}

/// The name of flows: all bytes that a name may have, as far as they stand.
#[tactic(auto, unfolding(crate::specs::FlowTexts::name_at))]
pub(crate) fn name(text: &[u8]) -> Option<(&[u8], &[u8])>
    ensures { option_map (λ found. (found.0.now, found.1.now)) result ≡ spec.name_at text.now }
{
    let count = name_length(text);
    if 1 <= count && count <= 63 {
        Some((&text[..count], &text[count..]))
    } else {
        None
    }
}

/// A number of 8 bits.
fn octet(text: &[u8]) -> Option<(u8, &[u8])>
    ensures { option_map (λ found. (found.0, found.1.now)) result ≡ number_at 255 text.now }
{
    match number(text, 255) {
        Some((octet, rest)) => Some((octet as u8, rest)),
        None => None,
    }
}

/// Four bytes, as numbers with dots between them.
#[tactic(auto, unfolding(crate::specs::FlowTexts::octets_at))]
pub(crate) fn octets(text: &[u8]) -> Option<([u8; 4], &[u8])>
    ensures { option_map (λ found. (found.0, found.1.now)) result ≡ spec.octets_at text.now }
{
    let (first, rest) = octet(text)?;
    let (second, rest) = octet(behind(b".", rest)?)?;
    let (third, rest) = octet(behind(b".", rest)?)?;
    let (fourth, rest) = octet(behind(b".", rest)?)?;
    Some(([first, second, third, fourth], rest))
}

/// An address behind a space.
#[tactic(auto, unfolding(crate::specs::FlowTexts::address_at))]
fn address(text: &[u8]) -> Option<(Addr, &[u8])>
    ensures { option_map (λ found. (found.0, found.1.now)) result ≡ spec.address_at text.now }
{
    let (octets, rest) = octets(behind(b" ", text)?)?;
    Some((Addr(u32::from_be_bytes(octets)), rest))
}

/// A port behind a space.
#[tactic(auto, unfolding(crate::specs::FlowTexts::port_at))]
fn port(text: &[u8]) -> Option<(u16, &[u8])>
    ensures { option_map (λ found. (found.0, found.1.now)) result ≡ spec.port_at text.now }
{
    let (port, rest) = number(behind(b" ", text)?, 65535)?;
    Some((port as u16, rest))
}

/// A protocol that has no name.
#[tactic(auto, unfolding(crate::specs::FlowTexts::plain_protocol))]
fn plain_protocol(text: &[u8]) -> Option<(u8, &[u8])>
    ensures { option_map (λ found. (found.0, found.1.now)) result
        ≡ spec.plain_protocol (number_at 255 text.now) }
{
    let (protocol, rest) = octet(text)?;
    if protocol == 0 || protocol == 1 || protocol == 6 || protocol == 17 {
        None
    } else {
        Some((protocol, rest))
    }
}

/// A protocol behind a space, by name where it has one.
#[tactic(auto, unfolding(crate::specs::FlowTexts::protocol_at))]
fn protocol(text: &[u8]) -> Option<(u8, &[u8])>
    ensures { option_map (λ found. (found.0, found.1.now)) result ≡ spec.protocol_at text.now }
{
    if let Some(rest) = behind(b" ip", text) {
        Some((0, rest))
    } else if let Some(rest) = behind(b" icmp", text) {
        Some((1, rest))
    } else if let Some(rest) = behind(b" tcp", text) {
        Some((6, rest))
    } else if let Some(rest) = behind(b" udp", text) {
        Some((17, rest))
    } else {
        plain_protocol(behind(b" ", text)?)
    }
}

/// A flow, each part behind a space.
#[tactic(auto, unfolding(crate::specs::FlowTexts::flow_at))]
pub(crate) fn flow(text: &[u8]) -> Option<(Flow, &[u8])>
    ensures { option_map (λ found. (found.0, found.1.now)) result ≡ spec.flow_at text.now }
{
    let (protocol, rest) = protocol(text)?;
    let (source, rest) = address(rest)?;
    let (source_port, rest) = port(rest)?;
    let (destination, rest) = address(rest)?;
    let (destination_port, rest) = port(rest)?;
    let flow = Flow {
        source,
        destination,
        source_port,
        destination_port,
        protocol,
    };
    Some((flow, rest))
}

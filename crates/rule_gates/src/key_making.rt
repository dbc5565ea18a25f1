ghost use Rattle.std.specs.Prelude.{◌≡◌, ◌≤◌};
ghost use Rattle.rule_gates.specs.Keys as spec;
ghost use Rattle.rule_gates.specs.Keys.{HasAddresses, IsAddress, IsKeyOf};
ghost use Rattle.rule_gates.specs.Words.{address_number};
ghost use Rattle.rule_match.specs.Packet.{source_address_of, destination_address_of};
ghost use Rattle.rule_match.specs.Ports as ports;

use crate::GateKey;
use crate::words::words_of;
use ip6_headers::AnyIp;

/// The number that stands for no port.
const NO_PORT: u32 = 65_536;

fn is_six(packet: &AnyIp<'_>) -> bool
    ensures { result ≡ spec.is_six packet.now }
{
    match packet {
        AnyIp::Four(_) => false,
        AnyIp::Six(_) => true,
    }
}

/// The source address as a number.
fn source_number(packet: &AnyIp<'_>) -> u128
    ensures number { result ≡ address_number (source_address_of packet.now) }
    ensures fits { IsAddress (source_address_of packet.now) }
{
    match packet {
        AnyIp::Four(packet) => u128::from(packet.source().0),
        AnyIp::Six(packet) => packet.source().0,
    }
}

/// The destination address as a number.
fn destination_number(packet: &AnyIp<'_>) -> u128
    ensures number { result ≡ address_number (destination_address_of packet.now) }
    ensures fits { IsAddress (destination_address_of packet.now) }
{
    match packet {
        AnyIp::Four(packet) => u128::from(packet.destination().0),
        AnyIp::Six(packet) => packet.destination().0,
    }
}

/// The source port and the destination port, as numbers.
fn port_numbers(packet: &AnyIp<'_>) -> (u32, u32)
    ensures source { result.0 ≡ spec.port_number (ports.source_port packet.now) }
    ensures destination { result.1 ≡ spec.port_number (ports.destination_port packet.now) }
    ensures few { (result.0 ≤ 65536) × (result.1 ≤ 65536) }
{
    match packet.ports() {
        Some((source, destination)) => (u32::from(source), u32::from(destination)),
        None => (NO_PORT, NO_PORT),
    }
}

/// The key of the packet.
pub fn key_of(packet: &AnyIp<'_>) -> GateKey
    ensures key { IsKeyOf packet.now result }
    ensures addresses { HasAddresses packet.now }
{
    let (source_port, destination_port) = port_numbers(packet);
    GateKey {
        source: words_of(source_number(packet)),
        destination: words_of(destination_number(packet)),
        source_port,
        destination_port,
        protocol: packet.protocol(),
        is_six: is_six(packet),
    }
}

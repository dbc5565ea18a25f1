ghost use Rattle.std.specs.Prelude.{◌≡◌};
ghost use Rattle.std.specs.Option.{option_copied};
ghost use Rattle.rule_match.specs.Packet.{source_address_of, destination_address_of};
ghost use Rattle.rule_match.specs.Tables as spec;

use crate::ports::{destination_port, source_port};
use fw_base::{Addr, Name};
use fw_rule::Field;
use ip6_headers::AnyIp;
use lookup_tables::{Table, Tables};

/// What a table answers for an address; none that isn't there, or has numbers, does.
pub fn address_value(table: Option<&Table>, address: Addr) -> Option<u32>
    ensures { result ≡ spec.address_value (option_copied table.entry) address.0 }
{
    match table {
        Some(Table::Addresses(entries)) => entries.find(address),
        Some(Table::Numbers(_)) | None => None,
    }
}

/// What a table answers for a number; none that isn't there, or has addresses, does.
fn number_value(table: Option<&Table>, number: u32) -> Option<u32>
    ensures { result ≡ spec.number_value (option_copied table.entry) number }
{
    match table {
        Some(Table::Numbers(entries)) => entries.find(number),
        Some(Table::Addresses(_)) | None => None,
    }
}

fn port_value(table: Option<&Table>, port: Option<u16>) -> Option<u32>
    ensures { result ≡ spec.port_value (option_copied table.entry) port }
{
    match port {
        Some(port) => number_value(table, u32::from(port)),
        None => None,
    }
}

/// What a table answers for the packet's source address; it knows none of IPv6.
fn source_value(table: Option<&Table>, packet: &AnyIp<'_>) -> Option<u32>
    ensures { result ≡ spec.answer_for (option_copied table.entry) (source_address_of packet.now) }
{
    match packet {
        AnyIp::Four(packet) => address_value(table, packet.source()),
        AnyIp::Six(_) => None,
    }
}

/// The same of its destination address.
fn destination_value(table: Option<&Table>, packet: &AnyIp<'_>) -> Option<u32>
    ensures { result
        ≡ spec.answer_for (option_copied table.entry) (destination_address_of packet.now) }
{
    match packet {
        AnyIp::Four(packet) => address_value(table, packet.destination()),
        AnyIp::Six(_) => None,
    }
}

/// What the table of that name answers for the field of the packet.
pub fn field_value(tables: &Tables, packet: &AnyIp<'_>, field: Field, name: &Name) -> Option<u32>
    ensures { result ≡ spec.field_value tables.now packet.now field name.now }
{
    let table = tables.get(name);
    match field {
        Field::SrcIp => source_value(table, packet),
        Field::DstIp => destination_value(table, packet),
        Field::SrcPort => port_value(table, source_port(packet)),
        Field::DstPort => port_value(table, destination_port(packet)),
    }
}

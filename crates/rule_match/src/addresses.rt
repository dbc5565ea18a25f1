ghost use Rattle.std.specs.Prelude.{◌≡◌, ◌==◌, is_some};
ghost use Rattle.std.specs.List.{list_any};
ghost use Rattle.lookup_tables.specs.Tables.{table_named};
ghost use Rattle.rule_match.specs.Holds as spec;
ghost use Rattle.rule_match.specs.Packet.{V4, source_address_of, destination_address_of};
ghost use Rattle.rule_match.specs.Tables as answers;

use crate::lookups::address_value;
use fw_base::{Addr, Addr6, Name, Prefix, Prefix6};
use fw_rule::{AddrItem, AddrSpec};
use ip6_headers::AnyIp;
use lookup_tables::Tables;

/// The opposite where the item is negated.
pub fn as_signed(negated: bool, holds: bool) -> bool
    ensures { result ≡ spec.as_signed negated holds }
{
    if negated { !holds } else { holds }
}

fn has_address(prefix: Prefix, address: Addr) -> bool
    ensures { result ≡ spec.has_address prefix address.0 }
{
    prefix.contains(address)
}

fn has_address6(network: Prefix6, address: Addr6) -> bool
    ensures { result ≡ spec.has_address6 network address.0 }
{
    network.contains(address)
}

/// Whether the address is one of the host's own.
fn is_own(locals: &[Addr], address: Addr) -> bool
    ensures { result ≡ list_any (λ local. local.0 == address.0) locals.now }
{
    locals.iter().any(|local| local.0 == address.0)
}

// The two that look into tables stay out of the loop over a list's elements, which then needs few
// registers: most elements are prefixes.

/// Whether the table of that name has an answer for the address.
#[inline(never)]
fn is_in_table(tables: &Tables, name: &Name, address: Addr) -> bool
    ensures { result ≡ is_some (answers.address_value (table_named tables.now name.now) address.0) }
{
    address_value(tables.get(name), address).is_some()
}

/// Whether its answer is this value.
#[inline(never)]
fn has_value(tables: &Tables, name: &Name, address: Addr, value: u32) -> bool
    ensures { result ≡ spec.is_value value
        (answers.address_value (table_named tables.now name.now) address.0) }
{
    match address_value(tables.get(name), address) {
        Some(answer) => answer == value,
        None => false,
    }
}

fn holds_item4(tables: &Tables, locals: &[Addr], address: Addr, item: &AddrItem) -> bool
    ensures { result ≡ spec.holds_item4 tables.now locals.now address.0 item.now }
{
    match item {
        AddrItem::Any => true,
        AddrItem::Me => is_own(locals, address),
        AddrItem::Net(prefix) => has_address(*prefix, address),
        AddrItem::Net6(_) => false,
        AddrItem::InTable(name) => is_in_table(tables, name, address),
        AddrItem::TableValue(name, value) => has_value(tables, name, address, *value),
    }
}

fn holds_some4(tables: &Tables, locals: &[Addr], address: Addr, items: &[AddrItem]) -> bool
    ensures { result ≡ list_any (spec.holds_item4 tables.now locals.now address.0) items.now }
{
    items
        .iter()
        .any(|item| holds_item4(tables, locals, address, item))
}

/// Whether the IPv4 address is one that the rule asks for.
fn holds_addresses4(tables: &Tables, locals: &[Addr], address: Addr, asked: &AddrSpec) -> bool
    ensures { result ≡ spec.holds_addresses tables.now locals.now (V4 address.0) asked.now }
{
    let items = asked.items.as_slice();
    as_signed(asked.negated, holds_some4(tables, locals, address, items))
}

fn holds_item6(address: Addr6, item: &AddrItem) -> bool
    ensures { result ≡ spec.holds_item6 address.0 item.now }
{
    match item {
        AddrItem::Any => true,
        AddrItem::Net6(prefix) => has_address6(*prefix, address),
        AddrItem::Me | AddrItem::Net(_) | AddrItem::InTable(_) | AddrItem::TableValue(_, _) => {
            false
        }
    }
}

fn holds_some6(address: Addr6, items: &[AddrItem]) -> bool
    ensures { result ≡ list_any (spec.holds_item6 address.0) items.now }
{
    items.iter().any(|item| holds_item6(address, item))
}

/// Whether the IPv6 address is one that the rule asks for.
#[inline(never)]
fn holds_addresses6(address: Addr6, asked: &AddrSpec) -> bool
    ensures { result ≡ spec.as_signed asked.now.negated
        (list_any (spec.holds_item6 address.0) asked.now.items) }
{
    as_signed(asked.negated, holds_some6(address, asked.items.as_slice()))
}

/// Whether the packet's source address is one that the rule asks for.
pub fn holds_source(tables: &Tables, locals: &[Addr], packet: &AnyIp<'_>, asked: &AddrSpec) -> bool
    ensures { result
        ≡ spec.holds_addresses tables.now locals.now (source_address_of packet.now) asked.now }
{
    match packet {
        AnyIp::Four(packet) => holds_addresses4(tables, locals, packet.source(), asked),
        AnyIp::Six(packet) => holds_addresses6(packet.source(), asked),
    }
}

/// Whether its destination address is.
pub fn holds_destination(
    tables: &Tables,
    locals: &[Addr],
    packet: &AnyIp<'_>,
    asked: &AddrSpec,
) -> bool
    ensures { result
        ≡ spec.holds_addresses tables.now locals.now (destination_address_of packet.now) asked.now }
{
    match packet {
        AnyIp::Four(packet) => holds_addresses4(tables, locals, packet.destination(), asked),
        AnyIp::Six(packet) => holds_addresses6(packet.destination(), asked),
    }
}

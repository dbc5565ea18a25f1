ghost use Rattle.std.specs.Prelude.{◌≡◌};
ghost use Rattle.std.specs.List.{list_any};
ghost use Rattle.rule_match.specs.Holds as spec;
ghost use Rattle.rule_match.specs.Ports as definition;

use crate::addresses::as_signed;
use fw_base::PortRange;
use fw_rule::PortList;
use ip6_headers::AnyIp;

/// The packet's source port; `None` where it isn't TCP or UDP, or lacks its header.
pub fn source_port(packet: &AnyIp<'_>) -> Option<u16>
    ensures { result ≡ definition.source_port packet.now }
{
    packet.ports().map(|(source, _)| source)
}

/// The packet's destination port; `None` where it isn't TCP or UDP, or lacks its header.
pub fn destination_port(packet: &AnyIp<'_>) -> Option<u16>
    ensures { result ≡ definition.destination_port packet.now }
{
    packet.ports().map(|(_, destination)| destination)
}

fn is_in_range(port: u16, range: PortRange) -> bool
    ensures { result ≡ definition.is_in_range port range }
{
    range.low() <= port && port <= range.high()
}

fn is_in_some(port: u16, ranges: &[PortRange]) -> bool
    ensures { result ≡ list_any (definition.is_in_range port) ranges.now }
{
    ranges.iter().any(|range| is_in_range(port, *range))
}

fn is_in_ranges(port: Option<u16>, ranges: &[PortRange]) -> bool
    ensures { result ≡ definition.is_in_ranges port ranges.now }
{
    match port {
        Some(port) => is_in_some(port, ranges),
        None => false,
    }
}

fn holds_list(port: Option<u16>, list: &PortList) -> bool
    ensures { result ≡ spec.as_signed list.now.negated
        (definition.is_in_ranges port list.now.ranges) }
{
    as_signed(list.negated, is_in_ranges(port, list.ranges.as_slice()))
}

// Most rules name no ports, and then the packet's aren't read.

/// Whether the packet's source port is one that the rule asks for.
pub fn holds_source_ports(packet: &AnyIp<'_>, asked: &Option<PortList>) -> bool
    ensures { result ≡ spec.holds_ports (definition.source_port packet.now) asked.now }
{
    match asked {
        Some(list) => holds_list(source_port(packet), list),
        None => true,
    }
}

/// Whether the packet's destination port is one that the rule asks for.
pub fn holds_destination_ports(packet: &AnyIp<'_>, asked: &Option<PortList>) -> bool
    ensures { result ≡ spec.holds_ports (definition.destination_port packet.now) asked.now }
{
    match asked {
        Some(list) => holds_list(destination_port(packet), list),
        None => true,
    }
}

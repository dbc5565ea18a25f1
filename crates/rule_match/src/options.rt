ghost use Rattle.std.specs.Prelude.{◌≡◌};
ghost use Rattle.std.specs.List.{list_all};
ghost use Rattle.rule_match.specs.Holds as body;
ghost use Rattle.packet_headers.specs.Options.{has_option};
ghost use Rattle.rule_match.specs.Packet.{icmp_type_of_packet, icmpv6_type_of};
ghost use Rattle.rule_match.specs.Tests as spec;

use crate::addresses::as_signed;
use crate::flags::{has_flags, has_icmpv6_type, has_type, is_established, is_setup};
use crate::interfaces::{holds_recv, holds_via, holds_xmit, is_in, is_out};
use crate::ip_options::{LOOSE_SOURCE_ROUTE, RECORD_ROUTE, STRICT_SOURCE_ROUTE, TIME_STAMP};
use crate::lookups::field_value;
use fw_base::Port;
use fw_rule::{Opt, Test, TypeSet, has_bit};
use ip6_headers::AnyIp;
use lookup_tables::Tables;
use packet_headers::Ip4;

/// Whether the option of that type is there or isn't, as the rule asks. The header's options are walked
/// only where it does.
fn agrees(present: bool, absent: bool, kind: u8, packet: &Ip4<'_>) -> bool
    ensures { result ≡ spec.agrees present absent (has_option kind packet.now.options) }
{
    if !present && !absent {
        return true;
    }
    let there = packet.has_option(kind);
    (!present || there) && (!absent || !there)
}

/// Whether the options of the one mask are there, and those of the other aren't.
#[inline(never)]
fn has_options(present: u8, absent: u8, packet: &Ip4<'_>) -> bool
    ensures { result ≡ spec.has_options present absent packet.now.options }
{
    let (present, absent) = (u32::from(present), u32::from(absent));
    (agrees(
        has_bit(present, 0),
        has_bit(absent, 0),
        STRICT_SOURCE_ROUTE,
        packet,
    ) && agrees(
        has_bit(present, 1),
        has_bit(absent, 1),
        LOOSE_SOURCE_ROUTE,
        packet,
    )) && (agrees(
        has_bit(present, 2),
        has_bit(absent, 2),
        RECORD_ROUTE,
        packet,
    ) && agrees(has_bit(present, 3), has_bit(absent, 3), TIME_STAMP, packet))
}

/// The same of a packet of either version; an IPv6 header has no such options.
fn holds_ip_options(present: u8, absent: u8, packet: &AnyIp<'_>) -> bool
    ensures { result ≡ spec.holds_ip_options present absent packet.now }
{
    match packet {
        AnyIp::Four(packet) => has_options(present, absent, packet),
        AnyIp::Six(_) => false,
    }
}

/// Whether the packet is ICMP, of IPv4, of a type of the mask.
fn holds_icmp_types(types: u32, packet: &AnyIp<'_>) -> bool
    ensures { result ≡ spec.has_icmp_type types (icmp_type_of_packet packet.now) }
{
    match packet {
        AnyIp::Four(packet) => has_type(types, packet.icmp_type()),
        AnyIp::Six(_) => false,
    }
}

/// Whether the packet is ICMPv6 of a type of the set.
fn holds_icmpv6_types(types: TypeSet, packet: &AnyIp<'_>) -> bool
    ensures { result ≡ spec.has_icmpv6_type types (icmpv6_type_of packet.now) }
{
    match packet {
        AnyIp::Four(_) => false,
        AnyIp::Six(packet) => has_icmpv6_type(types, packet.icmp6_type()),
    }
}

fn holds_test(tables: &Tables, packet: &AnyIp<'_>, port: &Port, test: &Test) -> bool
    ensures { result ≡ spec.holds_test tables.now packet.now port.now test.now }
{
    match test {
        Test::Inward => is_in(port.direction),
        Test::Outward => is_out(port.direction),
        Test::Established => is_established(packet.tcp_flags()),
        Test::Setup => is_setup(packet.tcp_flags()),
        Test::Frag => packet.offset() != 0,
        Test::Recv(asked) => holds_recv(port, asked),
        Test::Xmit(asked) => holds_xmit(port, asked),
        Test::Via(asked) => holds_via(port, asked),
        Test::TcpFlags { set, clear } => has_flags(*set, *clear, packet.tcp_flags()),
        Test::IcmpTypes(types) => holds_icmp_types(*types, packet),
        Test::Icmp6Types(types) => holds_icmpv6_types(*types, packet),
        Test::IpOptions { present, absent } => holds_ip_options(*present, *absent, packet),
        Test::Lookup(field, name) => field_value(tables, packet, *field, name).is_some(),
    }
}

fn holds_option(tables: &Tables, packet: &AnyIp<'_>, port: &Port, option: &Opt) -> bool
    ensures { result ≡ body.holds_option tables.now packet.now port.now option.now }
{
    as_signed(
        option.negated,
        holds_test(tables, packet, port, &option.test),
    )
}

/// Whether each option of a rule's body holds of the packet.
pub fn holds_options(tables: &Tables, packet: &AnyIp<'_>, port: &Port, options: &[Opt]) -> bool
    ensures { result ≡ list_all (body.holds_option tables.now packet.now port.now) options.now }
{
    options
        .iter()
        .all(|option| holds_option(tables, packet, port, option))
}

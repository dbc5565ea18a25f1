ghost use Rattle.std.specs.Prelude.{◌≡◌, ◌≤◌, length, IfSome};
ghost use Rattle.std.specs.Option.{option_copied};
ghost use Rattle.fw_base.specs.declared.link.Link.TheVariants.{Null, Ethernet, Raw, Cooked};
ghost use Rattle.ip6_headers.specs.Reading as spec;

use fw_base::Link;
use packet_headers::{VLAN, four_octets, two_octets};

// The address families of IPv6, each also as a machine of the other byte order writes it.

/// That of NetBSD and OpenBSD.
const INET6_NETBSD: u32 = 24;

const INET6_NETBSD_SWAPPED: u32 = 0x1800_0000;
/// That of FreeBSD.
const INET6_FREEBSD: u32 = 28;

const INET6_FREEBSD_SWAPPED: u32 = 0x1c00_0000;
/// That of macOS.
const INET6_MACOS: u32 = 30;

const INET6_MACOS_SWAPPED: u32 = 0x1e00_0000;

/// The Ethernet type of IPv6.
const IPV6: u16 = 0x86dd;

fn is_ipv6_family(family: u32) -> bool
    ensures { result ≡ spec.is_ipv6_family family }
{
    matches!(
        family,
        INET6_NETBSD
            | INET6_FREEBSD
            | INET6_MACOS
            | INET6_NETBSD_SWAPPED
            | INET6_FREEBSD_SWAPPED
            | INET6_MACOS_SWAPPED
    )
}

/// The IPv6 packet behind the link header; `None` where the frame is something else, or ends before.
pub fn ipv6_packet(link: Link, bytes: &[u8]) -> Option<&[u8]>
    ensures value { option_copied result ≡ spec.ipv6_packet link bytes.now }
    ensures within { IfSome result (λ packet. length packet.now ≤ length bytes.now) }
{
    match link {
        Link::Null => behind_null(bytes),
        Link::Ethernet => behind_ethernet(bytes),
        Link::Raw => behind_raw(bytes),
        Link::Cooked => behind_cooked(bytes),
    }
}

#[tactic(auto, unfolding(crate::specs::Reading::ipv6_packet))]
fn behind_null(bytes: &[u8]) -> Option<&[u8]>
    ensures value { option_copied result ≡ spec.ipv6_packet Null bytes.now }
    ensures within { IfSome result (λ packet. length packet.now ≤ length bytes.now) }
{
    if bytes.len() >= 4 && is_ipv6_family(four_octets(bytes, 0)) {
        Some(&bytes[4..])
    } else {
        None
    }
}

#[tactic(auto, unfolding(crate::specs::Reading::ipv6_packet))]
fn behind_ethernet(bytes: &[u8]) -> Option<&[u8]>
    ensures value { option_copied result ≡ spec.ipv6_packet Ethernet bytes.now }
    ensures within { IfSome result (λ packet. length packet.now ≤ length bytes.now) }
{
    if bytes.len() < 14 {
        return None;
    }
    let kind = two_octets(bytes, 12);
    if kind != VLAN {
        return typed_ipv6(kind, &bytes[14..]);
    }
    if bytes.len() < 18 {
        return None;
    }
    typed_ipv6(two_octets(bytes, 16), &bytes[18..])
}

#[tactic(auto, unfolding(crate::specs::Reading::ipv6_packet))]
fn behind_raw(bytes: &[u8]) -> Option<&[u8]>
    ensures value { option_copied result ≡ spec.ipv6_packet Raw bytes.now }
    ensures within { IfSome result (λ packet. length packet.now ≤ length bytes.now) }
{
    if !bytes.is_empty() && bytes[0] / 16 == 6 {
        Some(bytes)
    } else {
        None
    }
}

#[tactic(auto, unfolding(crate::specs::Reading::ipv6_packet))]
fn behind_cooked(bytes: &[u8]) -> Option<&[u8]>
    ensures value { option_copied result ≡ spec.ipv6_packet Cooked bytes.now }
    ensures within { IfSome result (λ packet. length packet.now ≤ length bytes.now) }
{
    if bytes.len() < 16 {
        return None;
    }
    typed_ipv6(two_octets(bytes, 14), &bytes[16..])
}

fn typed_ipv6(kind: u16, packet: &[u8]) -> Option<&[u8]>
    ensures value { option_copied result ≡ spec.typed_ipv6 kind packet.now }
    ensures within { IfSome result (λ behind. length behind.now ≤ length packet.now) }
{
    if kind == IPV6 { Some(packet) } else { None }
}

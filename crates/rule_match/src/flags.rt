ghost use Rattle.std.specs.Prelude.{◌≡◌};
ghost use Rattle.rule_match.specs.Tests as spec;

use fw_rule::{TypeSet, has_bit};

/// The bit of SYN among TCP's flags (RFC 9293 section 3.1).
const SYN: u32 = 1;
/// The bit of RST.
const RST: u32 = 2;
/// The bit of ACK.
const ACK: u32 = 4;

/// Whether TCP's flags, where the packet has some, have RST or ACK.
pub fn is_established(flags: Option<u8>) -> bool
    ensures { result ≡ spec.is_established flags }
{
    match flags {
        Some(flags) => has_bit(u32::from(flags), RST) || has_bit(u32::from(flags), ACK),
        None => false,
    }
}

/// Whether TCP's flags, where the packet has some, have SYN and not ACK.
pub fn is_setup(flags: Option<u8>) -> bool
    ensures { result ≡ spec.is_setup flags }
{
    match flags {
        Some(flags) => has_bit(u32::from(flags), SYN) && !has_bit(u32::from(flags), ACK),
        None => false,
    }
}

/// Whether TCP's flags, where the packet has some, have all of the one mask and none of the other.
pub fn has_flags(set: u8, clear: u8, flags: Option<u8>) -> bool
    ensures { result ≡ spec.has_flags set clear flags }
{
    match flags {
        Some(flags) => flags & set == set && flags & clear == 0,
        None => false,
    }
}

/// Whether the ICMP type, where the packet has one, is one of the mask.
pub fn has_type(types: u32, kind: Option<u8>) -> bool
    ensures { result ≡ spec.has_icmp_type types kind }
{
    match kind {
        Some(kind) => kind < 32 && has_bit(types, u32::from(kind)),
        None => false,
    }
}

/// Whether the ICMPv6 type, where the packet has one, is one of the set.
pub fn has_icmpv6_type(types: TypeSet, kind: Option<u8>) -> bool
    ensures { result ≡ spec.has_icmpv6_type types kind }
{
    match kind {
        Some(kind) => types.contains(kind),
        None => false,
    }
}

ghost use Rattle.std.specs.Prelude.{◌≡◌, ◌-◌, ◌*◌, ◌/◌, ◌^◌, ◌≤◌, ◌<◌, ◌↔◌, IsSome, IfSome, IsTrue};
ghost use Rattle.fw_base.specs.Prefix6.{Network6, network6, Covers6, IsNetwork6};

use crate::Addr6;
use std::marker::Model;

/// An IPv6 prefix: the addresses whose first `length` bits are those of `address` (RFC 4291 section
/// 2.3). The bits behind them, the host bits, are 0 in `address`.
#[derive(Clone, Copy, Debug, PartialEq, Eq)]
pub struct Prefix6 {
    address: Addr6,
    bits: u8,
}

impl Model for Prefix6 {
    ghost use Rattle.fw_base.specs.Prefix6.{Network6, IsNetwork6};

    ghost Value = { Network6 };

    ghost view = { λ p. record { address = p.address.0; bits = p.bits } };

    ghost invariant = { λ p. IsNetwork6 (record { address = p.address.0; bits = p.bits }) };

    ghost inverse = { λ n. record { address = record { 0 = n.address }; bits = n.bits } };
}

/// The address without its last bits, as many as that: 0 where it is all of them.
fn leading(address: u128, host_bits: u8) -> u128
    requires { host_bits ≤ 128 }
    ensures { result ≡ address / 2 ^ host_bits }
{
    if host_bits == 128 {
        0
    } else {
        address >> host_bits
    }
}

/// The number with that many zero bits behind it.
fn followed(leading: u128, host_bits: u8) -> u128
    requires room { leading * 2 ^ host_bits < 2 ^ 128 }
    requires width { host_bits ≤ 128 }
    ensures { result ≡ leading * 2 ^ host_bits }
{
    if host_bits == 128 {
        0
    } else {
        leading << host_bits
    }
}

impl Prefix6 {
    /// The prefix of that length, 0 to 128, with the address's host bits cleared; `None` exactly where
    /// `length` is above 128.
    pub fn new(address: Addr6, length: u8) -> Option<Prefix6>
        ensures within { IsSome result ↔ (length ≤ 128) }
        ensures value { IfSome result (λ prefix. prefix ≡ network6 address.0 length) }
    {
        if length > 128 {
            return None;
        }
        let host_bits = 128 - length;
        Some(Prefix6 {
            address: Addr6(followed(leading(address.0, host_bits), host_bits)),
            bits: length,
        })
    }

    /// Whether the address is one of the prefix: its first `length` bits are the prefix's.
    pub fn contains(&self, address: Addr6) -> bool
        ensures { IsTrue result ↔ Covers6 self.now address.0 }
    {
        let host_bits = 128 - self.bits;
        leading(address.0, host_bits) == leading(self.address.0, host_bits)
    }

    /// The address, with no host bit set.
    pub fn address(&self) -> Addr6
        ensures { result.0 ≡ self.now.address }
    {
        self.address
    }

    /// How many bits are fixed, 0 to 128. No bit of the address behind them is set.
    pub fn length(&self) -> u8
        ensures value { result ≡ self.now.bits }
        ensures within { result ≤ 128 }
        ensures cleared { IsNetwork6 self.now }
    {
        self.bits
    }
}

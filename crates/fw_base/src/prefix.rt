ghost use Rattle.std.specs.Prelude.{◌≡◌, ◌≤◌, ◌↔◌, IsSome, IfSome, IsTrue};
ghost use Rattle.fw_base.specs.Prefix.{Network, network, Covers, IsNetwork};

use crate::Addr;
use std::fmt;
use std::marker::Model;

/// An IPv4 prefix: the addresses whose first `length` bits are those of `address` (RFC 4632 section
/// 3.1). The bits behind them, the host bits, are 0 in `address`.
#[derive(Clone, Copy, Debug, PartialEq, Eq, PartialOrd, Ord)]
pub struct Prefix {
    address: Addr,
    bits: u8,
}

impl Model for Prefix {
    ghost use Rattle.fw_base.specs.Prefix.{Network, IsNetwork};

    ghost Value = { Network };

    ghost view = { λ p. record { address = p.address.0; bits = p.bits } };

    ghost invariant = { λ p. IsNetwork (record { address = p.address.0; bits = p.bits }) };

    ghost inverse = { λ n. record { address = record { 0 = n.address }; bits = n.bits } };
}

impl Prefix {
    /// The prefix of that length, 0 to 32, with the address's host bits cleared; `None` exactly where
    /// `length` is above 32.
    pub fn new(address: Addr, length: u8) -> Option<Prefix>
        ensures within { IsSome result ↔ (length ≤ 32) }
        ensures value { IfSome result (λ prefix. prefix ≡ network address.0 length) }
    {
        if length > 32 {
            return None;
        }
        let host_bits = 32 - length;
        Some(Prefix {
            address: Addr((u64::from(address.0) >> host_bits << host_bits) as u32),
            bits: length,
        })
    }

    /// Whether the address is one of the prefix: its first `length` bits are the prefix's.
    pub fn contains(&self, address: Addr) -> bool
        ensures { IsTrue result ↔ Covers self.now address.0 }
    {
        let host_bits = 32 - self.bits;
        u64::from(address.0) >> host_bits == u64::from(self.address.0) >> host_bits
    }

    /// The address, with no host bit set.
    pub fn address(&self) -> Addr
        ensures { result.0 ≡ self.now.address }
    {
        self.address
    }

    /// How many bits are fixed, 0 to 32. No bit of the address behind them is set.
    pub fn length(&self) -> u8
        ensures value { result ≡ self.now.bits }
        ensures within { result ≤ 32 }
        ensures cleared { IsNetwork self.now }
    {
        self.bits
    }
}

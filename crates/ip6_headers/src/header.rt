use std::marker::Model;

/// A header of an IPv6 packet: what it is, as the header before it says, and where it begins in the packet.
#[derive(Clone, Copy)]
pub struct Header {
    pub number: u8,
    pub place: usize,
}

impl Model for Header {
    ghost use Rattle.ip6_headers.specs.Chain as chain;

    ghost Value = { chain.Header };

    ghost view = { λ h. record { number = h.number; place = h.place } };

    ghost inverse = { λ h. record { number = h.number; place = h.place } };
}

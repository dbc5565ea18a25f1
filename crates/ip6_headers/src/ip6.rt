ghost use Rattle.std.specs.Prelude.{◌≡◌};
ghost use Rattle.ip6_headers.specs.Transport6.{has_transport_header6, ports6_of, tcp_flags6_of, icmp6_type_of};

use crate::protocols::{ICMP6, header_size6};
use fw_base::Addr6;
use packet_headers::{TCP, UDP, two_octets};
use std::marker::Model;

/// The headers of an IPv6 packet (RFC 8200 sections 3 and 4), with the captured bytes behind them.
#[derive(Debug, Drop)]
pub struct Ip6<'a> {
    pub(crate) source: Addr6,
    pub(crate) destination: Addr6,
    pub(crate) protocol: u8,
    pub(crate) total: u32,
    pub(crate) offset: u16,
    pub(crate) transport: &'a [u8],
}

impl<'a> Model for Ip6<'a> {
    ghost use Rattle.ip6_headers.specs.Fields6.{Fields6};

    ghost Value = { Fields6 };

    ghost view = { λ p. record {
      source = p.source.0;
      destination = p.destination.0;
      protocol = p.protocol;
      total = p.total;
      offset = p.offset;
      transport = p.transport.now;
    } };
}

impl<'a> Ip6<'a> {
    /// The source address.
    pub fn source(&self) -> Addr6
        ensures { result.0 ≡ self.now.source }
    {
        self.source
    }

    /// The destination address.
    pub fn destination(&self) -> Addr6
        ensures { result.0 ≡ self.now.destination }
    {
        self.destination
    }

    /// The protocol number: that of the first header that is no extension header. Where an extension
    /// header isn't there whole it is that header's number.
    pub fn protocol(&self) -> u8
        ensures { result ≡ self.now.protocol }
    {
        self.protocol
    }

    /// The total length in bytes, the 40 of the header and the payload length together. A payload length
    /// of 0, as segmentation offload leaves it, is told as the number of bytes behind the link header.
    pub fn total(&self) -> u32
        ensures { result ≡ self.now.total }
    {
        self.total
    }

    /// Where this fragment's data begins in the whole packet, in units of 8 bytes; 0 where no fragment
    /// header is there.
    pub fn offset(&self) -> u16
        ensures { result ≡ self.now.offset }
    {
        self.offset
    }

    /// The captured bytes behind the extension headers, up to the total length; none in a later fragment,
    /// or where an extension header isn't there whole.
    pub fn transport(&self) -> &'a [u8]
        ensures { result.now ≡ self.now.transport }
    {
        self.transport
    }

    /// The source port and the destination port; `None` exactly where the packet isn't TCP or UDP, or
    /// lacks its transport header.
    #[tactic(auto, unfolding(crate::specs::Transport6::ports6_of))]
    pub fn ports(&self) -> Option<(u16, u16)>
        ensures { result ≡ ports6_of self.now }
    {
        if (self.protocol == TCP || self.protocol == UDP) && self.has_transport_header() {
            Some((two_octets(self.transport, 0), two_octets(self.transport, 2)))
        } else {
            None
        }
    }

    /// The eight control bits of TCP: FIN 1, SYN 2, RST 4, PSH 8, ACK 16, URG 32, ECE 64, CWR 128;
    /// `None` exactly where the packet isn't TCP, or lacks its transport header.
    #[tactic(auto, unfolding(crate::specs::Transport6::tcp_flags6_of))]
    pub fn tcp_flags(&self) -> Option<u8>
        ensures { result ≡ tcp_flags6_of self.now }
    {
        if self.protocol == TCP && self.has_transport_header() {
            Some(self.transport[13])
        } else {
            None
        }
    }

    /// The type of the ICMPv6 message; `None` exactly where the packet isn't ICMPv6, or lacks its
    /// transport header.
    #[tactic(auto, unfolding(crate::specs::Transport6::icmp6_type_of))]
    pub fn icmp6_type(&self) -> Option<u8>
        ensures { result ≡ icmp6_type_of self.now }
    {
        if self.protocol == ICMP6 && self.has_transport_header() {
            Some(self.transport[0])
        } else {
            None
        }
    }

    /// Whether its transport header is there, whole: never in a later fragment.
    pub fn has_transport_header(&self) -> bool
        ensures { result ≡ has_transport_header6 self.now }
    {
        self.offset == 0 && self.transport.len() >= header_size6(self.protocol)
    }
}

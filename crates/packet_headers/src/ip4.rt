ghost use Rattle.std.specs.Prelude.{◌≡◌};
ghost use Rattle.packet_headers.specs.Flows.{flow_of};
ghost use Rattle.packet_headers.specs.Options.{has_option};
ghost use Rattle.packet_headers.specs.Transport.{has_transport_header, ports_of, tcp_flags_of, icmp_type_of};

use crate::octets::two_octets;
use crate::protocols::{ICMP, TCP, UDP, header_size};
use crate::{Flow, options};
use fw_base::Addr;
use std::marker::Model;

/// The header of an IPv4 packet (RFC 791 section 3.1), with the captured bytes behind it.
#[derive(Debug, Drop)]
pub struct Ip4<'a> {
    pub(crate) source: Addr,
    pub(crate) destination: Addr,
    pub(crate) protocol: u8,
    pub(crate) total: u32,
    pub(crate) offset: u16,
    pub(crate) options: &'a [u8],
    pub(crate) transport: &'a [u8],
}

impl<'a> Model for Ip4<'a> {
    ghost use Rattle.packet_headers.specs.Fields.{Fields};

    ghost Value = { Fields };

    ghost view = { λ p. record {
      source = p.source.0;
      destination = p.destination.0;
      protocol = p.protocol;
      total = p.total;
      offset = p.offset;
      options = p.options.now;
      transport = p.transport.now;
    } };
}

impl<'a> Ip4<'a> {
    /// The source address.
    pub fn source(&self) -> Addr
        ensures { result.0 ≡ self.now.source }
    {
        self.source
    }

    /// The destination address.
    pub fn destination(&self) -> Addr
        ensures { result.0 ≡ self.now.destination }
    {
        self.destination
    }

    /// The protocol number.
    pub fn protocol(&self) -> u8
        ensures { result ≡ self.now.protocol }
    {
        self.protocol
    }

    /// The total length in bytes, header and data together. A total length of 0, as segmentation
    /// offload leaves it, is told as the number of bytes behind the link header.
    pub fn total(&self) -> u32
        ensures { result ≡ self.now.total }
    {
        self.total
    }

    /// Where this fragment's data begins in the whole datagram, in units of 8 bytes.
    pub fn offset(&self) -> u16
        ensures { result ≡ self.now.offset }
    {
        self.offset
    }

    /// The header's bytes behind its first 20.
    pub fn options(&self) -> &'a [u8]
        ensures { result.now ≡ self.now.options }
    {
        self.options
    }

    /// The captured bytes behind the header, up to the total length.
    pub fn transport(&self) -> &'a [u8]
        ensures { result.now ≡ self.now.transport }
    {
        self.transport
    }

    /// Whether an option of that type is there. An option whose length byte is below 2 or reaches past
    /// the header isn't, nor is one behind it or behind the end of the options, type 0.
    pub fn has_option(&self, kind: u8) -> bool
        ensures { result ≡ has_option kind self.now.options }
    {
        options::has_option(self.options, kind)
    }

    /// The source port and the destination port; `None` exactly where the packet isn't TCP or UDP, or
    /// lacks its transport header.
    #[tactic(auto, unfolding(crate::specs::Transport::ports_of))]
    pub fn ports(&self) -> Option<(u16, u16)>
        ensures { result ≡ ports_of self.now }
    {
        if (self.protocol == TCP || self.protocol == UDP) && self.has_transport_header() {
            Some((two_octets(self.transport, 0), two_octets(self.transport, 2)))
        } else {
            None
        }
    }

    /// The eight control bits of TCP: FIN 1, SYN 2, RST 4, PSH 8, ACK 16, URG 32, ECE 64, CWR 128;
    /// `None` exactly where the packet isn't TCP, or lacks its transport header.
    #[tactic(auto, unfolding(crate::specs::Transport::tcp_flags_of))]
    pub fn tcp_flags(&self) -> Option<u8>
        ensures { result ≡ tcp_flags_of self.now }
    {
        if self.protocol == TCP && self.has_transport_header() {
            Some(self.transport[13])
        } else {
            None
        }
    }

    /// The type of the ICMP message; `None` exactly where the packet isn't ICMP, or lacks its transport
    /// header.
    #[tactic(auto, unfolding(crate::specs::Transport::icmp_type_of))]
    pub fn icmp_type(&self) -> Option<u8>
        ensures { result ≡ icmp_type_of self.now }
    {
        if self.protocol == ICMP && self.has_transport_header() {
            Some(self.transport[0])
        } else {
            None
        }
    }

    fn has_transport_header(&self) -> bool
        ensures { result ≡ has_transport_header self.now }
    {
        self.offset == 0 && self.transport.len() >= header_size(self.protocol)
    }
}

/// The packet's flow; `None` exactly where it is a later fragment or lacks its transport header.
#[tactic(auto, unfolding(crate::specs::Flows::flow_of))]
pub fn flow(packet: &Ip4<'_>) -> Option<Flow>
    ensures { result ≡ flow_of packet.now }
{
    if !packet.has_transport_header() {
        return None;
    }
    let (source_port, destination_port) = packet.ports().unwrap_or((0, 0));
    Some(Flow {
        protocol: packet.protocol,
        source: packet.source,
        source_port,
        destination: packet.destination,
        destination_port,
    })
}

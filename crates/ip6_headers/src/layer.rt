ghost use Rattle.std.specs.Prelude.{◌≡◌, ◌≤◌, length};
ghost use Rattle.ip6_headers.specs.Layer as spec;

use crate::chain::{end_of, fragment_offset, is_extension};
use crate::header::Header;
use std::marker::Model;

/// What stands behind the extension headers.
#[derive(Drop)]
pub struct Layer<'a> {
    pub protocol: u8,
    pub offset: u16,
    pub transport: &'a [u8],
}

impl<'a> Model for Layer<'a> {
    ghost use Rattle.ip6_headers.specs.Layer as layers;

    ghost Value = { layers.Layer };

    ghost view = { λ l. record {
      protocol = l.protocol;
      offset = l.offset;
      transport = l.transport.now;
    } };
}

/// What the header at which the chain ends leads to.
pub fn layer_at(packet: &[u8], last: Header) -> Layer<'_>
    requires { last.place ≤ length packet.now }
    ensures { result ≡ spec.layer_at packet.now last }
{
    if !is_extension(last.number) {
        return Layer {
            protocol: last.number,
            offset: 0,
            transport: &packet[last.place..],
        };
    }
    match end_of(packet, last) {
        None => Layer {
            protocol: last.number,
            offset: 0,
            transport: &packet[..0],
        },
        Some(_) => Layer {
            protocol: packet[last.place],
            offset: fragment_offset(packet, last),
            transport: &packet[..0],
        },
    }
}

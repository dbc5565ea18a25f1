ghost use Rattle.std.specs.Prelude.{◌≡◌, ◌+◌, ◌≤◌, ◌++◌, flat_map, length};
ghost use Rattle.load_maker.specs.Packets as packets;

use arrayvec::ArrayVec;

/// The bytes of a record with the longest packet.
pub(crate) const RECORD_BYTES: usize = 56;

/// 192.0.2.1
const SERVER: u32 = 0xc000_0201;

/// 10.0.0.0
const CLIENTS: u32 = 0x0a00_0000;

/// 198.51.100.0
const STRANGERS: u32 = 0xc633_6400;

const SYN: u8 = 2;

const ACK: u8 = 16;

/// Puts the pieces behind what is there.
pub(crate) fn put(out: &mut ArrayVec<u8, RECORD_BYTES>, pieces: &[&[u8]])
    requires { length out.old.items + length (flat_map (λ piece. piece.now) pieces.now)
        ≤ RECORD_BYTES }
    ensures { out.new.items ≡ out.old.items ++ flat_map (λ piece. piece.now) pieces.now }
{
    for piece in pieces {
        out.try_extend_from_slice(piece).unwrap();
    }
}

fn header_start(total: u8, protocol: u8) -> [u8; 12]
    ensures { result ≡ packets.header_start total protocol }
{
    [0x45, 0, 0, total, 0, 0, 0, 0, 64, protocol, 0, 0]
}

fn tcp_end(flags: u8) -> [u8; 16]
    ensures { result ≡ packets.tcp_end flags }
{
    [0, 0, 0, 0, 0, 0, 0, 0, 0x50, flags, 0xff, 0xff, 0, 0, 0, 0]
}

/// Puts a TCP packet of 40 bytes.
#[tactic(auto, unfolding(crate::specs::Packets::tcp_packet))]
fn put_tcp(
    out: &mut ArrayVec<u8, RECORD_BYTES>,
    source: u32,
    port: u16,
    destination: u32,
    other: u16,
    flags: u8,
)
    requires { length out.old.items + 40 ≤ RECORD_BYTES }
    ensures { out.new.items
        ≡ out.old.items ++ packets.tcp_packet source port destination other flags }
{
    let start = header_start(40, 6);
    let end = tcp_end(flags);
    let (source, destination) = (source.to_be_bytes(), destination.to_be_bytes());
    let (port, other) = (port.to_be_bytes(), other.to_be_bytes());
    put(out, &[&start, &source, &destination, &port, &other, &end]);
}

/// Puts a UDP packet of 28 bytes.
#[tactic(auto, unfolding(crate::specs::Packets::udp_packet))]
fn put_udp(
    out: &mut ArrayVec<u8, RECORD_BYTES>,
    source: u32,
    port: u16,
    destination: u32,
    other: u16,
)
    requires { length out.old.items + 28 ≤ RECORD_BYTES }
    ensures { out.new.items
        ≡ out.old.items ++ packets.udp_packet source port destination other }
{
    let start = header_start(28, 17);
    let (source, destination) = (source.to_be_bytes(), destination.to_be_bytes());
    let (port, other) = (port.to_be_bytes(), other.to_be_bytes());
    put(
        out,
        &[&start, &source, &destination, &port, &other, &[0, 8, 0, 0]],
    );
}

/// Puts an echo request of 28 bytes.
#[tactic(auto, unfolding(crate::specs::Packets::echo_packet))]
fn put_echo(out: &mut ArrayVec<u8, RECORD_BYTES>, source: u32, destination: u32)
    requires { length out.old.items + 28 ≤ RECORD_BYTES }
    ensures { out.new.items ≡ out.old.items ++ packets.echo_packet source destination }
{
    let start = header_start(28, 1);
    let (source, destination) = (source.to_be_bytes(), destination.to_be_bytes());
    put(
        out,
        &[&start, &source, &destination, &[8, 0, 0, 0, 0, 0, 0, 0]],
    );
}

/// How many bytes the packet of that kind, host and port has.
#[tactic(auto, unfolding(crate::specs::Packets::tcp_packet, crate::specs::Packets::udp_packet, crate::specs::Packets::echo_packet))]
pub(crate) fn packet_length(kind: u8, host: u8, port: u16) -> u32
    ensures { result ≡ length (packets.packet_of kind host port) }
{
    match kind {
        0 => 40,
        1 => 28,
        2 => 40,
        _ => 28,
    }
}

/// Puts the packet of the kind, 0 to 3, of that host and port.
pub(crate) fn put_packet(out: &mut ArrayVec<u8, RECORD_BYTES>, kind: u8, host: u8, port: u16)
    requires { length out.old.items + 40 ≤ RECORD_BYTES }
    ensures { out.new.items ≡ out.old.items ++ packets.packet_of kind host port }
{
    let host = u32::from(host);
    match kind {
        0 => put_tcp(out, CLIENTS + host, port, SERVER, 80, SYN),
        1 => put_udp(out, CLIENTS + host, port, SERVER, 53),
        2 => put_tcp(out, STRANGERS + host, 80, CLIENTS + host, port, ACK),
        _ => put_echo(out, CLIENTS + host, SERVER),
    }
}

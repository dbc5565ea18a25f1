use crate::Ip4;

/// What a captured frame is.
#[derive(Debug, Drop)]
pub enum Packet<'a> {
    /// An IPv4 packet.
    Ip(Ip4<'a>),
    /// No IPv4 packet, by its link header.
    Other,
    /// An IPv4 packet by its link header, but its header can't be read. The number says why: 1 the link
    /// header is short, 2 the IPv4 header is, 3 the version isn't 4, 4 the header length is below five
    /// words, 5 the total length is below the header's.
    Malformed(u8),
}

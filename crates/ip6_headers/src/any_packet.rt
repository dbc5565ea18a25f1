use crate::AnyIp;

/// What a captured frame is.
#[derive(Debug, Drop)]
pub enum AnyPacket<'a> {
    /// An IPv4 or IPv6 packet.
    Ip(AnyIp<'a>),
    /// Neither, by its link header.
    Other,
    /// A packet of one of the two by its link header, but its header can't be read. The number says why:
    /// 1 the link header is short, 2 the packet's header is, 3 its version isn't the link header's; of an
    /// IPv4 packet also 4 the header length is below five words, 5 the total length is below the header's.
    Malformed(u8),
}

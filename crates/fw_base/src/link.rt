/// The link types that are read, by their numbers in a capture's header (pcap 2.4).
#[derive(Clone, Copy, Debug)]
pub enum Link {
    /// 0: four bytes of address family, in the order of the machine that captured.
    Null,
    /// 1: Ethernet.
    Ethernet,
    /// 101: no link header, the packet begins at once.
    Raw,
    /// 113: Linux cooked, version 1.
    Cooked,
}

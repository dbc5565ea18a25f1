use fw_base::Addr;

/// Who speaks to whom: the protocol, and both ends. The ports are 0 for protocols other than TCP and
/// UDP.
#[derive(Clone, Copy, Debug, PartialEq, Eq, Hash)]
pub struct Flow {
    pub source: Addr,
    pub destination: Addr,
    pub source_port: u16,
    pub destination_port: u16,
    pub protocol: u8,
}

use crate::{Iface, TypeSet};
use fw_base::Name;

/// What an option of a rule's body asks of a packet (ipfw(8), "RULE OPTIONS").
#[derive(Clone, Drop)]
pub enum Test {
    /// `in`
    Inward,
    /// `out`
    Outward,
    /// `established`: TCP with RST or ACK.
    Established,
    /// `setup`: TCP with SYN and no ACK.
    Setup,
    /// `frag`: not the first fragment.
    Frag,
    /// `recv`: the interface that received it.
    Recv(Iface),
    /// `xmit`: the interface that transmits it.
    Xmit(Iface),
    /// `via`: either interface.
    Via(Iface),
    /// `tcpflags`: these flags set and those clear, as bits FIN 1, SYN 2, RST 4, PSH 8, ACK 16,
    /// URG 32 (RFC 9293 section 3.1).
    TcpFlags { set: u8, clear: u8 },
    /// `icmptypes`: the type is one of 0 to 31 whose bit is set (RFC 792).
    IcmpTypes(u32),
    /// `icmp6types`: the type is one of the set (RFC 4443).
    Icmp6Types(TypeSet),
    /// `ipoptions`: these options present and those absent, as bits ssrr 1, lsrr 2, rr 4, ts 8
    /// (RFC 791 section 3.1).
    IpOptions { present: u8, absent: u8 },
    /// `lookup`: the table has a value for the field.
    Lookup(Field, Name),
}

/// The field of a packet that `lookup` looks up in a table.
#[derive(Clone, Copy)]
pub enum Field {
    SrcIp,
    DstIp,
    SrcPort,
    DstPort,
}

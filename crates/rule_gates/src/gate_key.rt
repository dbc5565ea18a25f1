ghost use Rattle.std.specs.Prelude.{◌≤◌};
ghost use Rattle.rule_gates.specs.Within.{AreWords};

/// What gates ask of a packet.
#[derive(Clone, Copy)]
pub struct GateKey {
    /// The words of its source address, the last one first.
    pub(crate) source: [u32; 4],
    /// Those of its destination address.
    pub(crate) destination: [u32; 4],
    /// Its source port; 65,536 where it has none.
    pub(crate) source_port: u32,
    /// Its destination port.
    pub(crate) destination_port: u32,
    /// The number of its protocol.
    pub(crate) protocol: u8,
    /// It is a packet of IPv6.
    pub(crate) is_six: bool,
    ghost worded: { AreWords source × AreWords destination },
    ghost ported: { (source_port ≤ 65536) × (destination_port ≤ 65536) },
}

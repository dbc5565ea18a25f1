ghost use Rattle.std.specs.Prelude.{◌≡◌};
ghost use Rattle.rule_match.specs.Interfaces as spec;

use fw_base::{Direction, Port};
use fw_rule::Iface;

/// Whether packets that pass this way come in.
pub fn is_in(direction: Direction) -> bool
    ensures { result ≡ spec.is_in direction }
{
    match direction {
        Direction::In => true,
        Direction::Out => false,
    }
}

/// Whether packets that pass this way go out.
pub fn is_out(direction: Direction) -> bool
    ensures { result ≡ spec.is_out direction }
{
    match direction {
        Direction::In => false,
        Direction::Out => true,
    }
}

fn is_asked_for(interface: &[u8], asked: &Iface) -> bool
    ensures { result ≡ spec.is_asked_for interface.now asked.now }
{
    match asked {
        Iface::AnyIface => true,
        Iface::Exact(name) => name.bytes() == interface,
        Iface::Begins(start) => interface.starts_with(start.bytes()),
    }
}

/// Whether the packet has a receive interface, and the rule asks for it.
pub fn holds_recv(port: &Port, asked: &Iface) -> bool
    ensures { result ≡ spec.holds_recv port.now asked.now }
{
    is_in(port.direction) && is_asked_for(port.interface.bytes(), asked)
}

/// Whether the packet has a transmit interface, and the rule asks for it.
pub fn holds_xmit(port: &Port, asked: &Iface) -> bool
    ensures { result ≡ spec.holds_xmit port.now asked.now }
{
    is_out(port.direction) && is_asked_for(port.interface.bytes(), asked)
}

/// Whether the rule asks for the interface that the packet has.
pub fn holds_via(port: &Port, asked: &Iface) -> bool
    ensures { result ≡ spec.holds_via port.now asked.now }
{
    is_asked_for(port.interface.bytes(), asked)
}

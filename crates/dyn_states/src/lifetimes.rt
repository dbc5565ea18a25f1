ghost use Rattle.std.specs.Prelude.{◌≡◌, ◌≤◌};
ghost use Rattle.fw_rule.specs.Values.{values_of};
ghost use Rattle.dyn_states.specs.Lifetimes as lifetimes;

use fw_rule::{Settings, has_bit};
use packet_headers::{TCP, UDP};

fn is_opening(forward: u8, reverse: u8) -> bool
    ensures { result ≡ lifetimes.is_opening forward reverse }
{
    forward == 2 && reverse == 0
}

fn is_open(forward: u8, reverse: u8) -> bool
    ensures { result ≡ lifetimes.is_open forward reverse }
{
    let (forward, reverse) = (u32::from(forward), u32::from(reverse));
    has_bit(forward, 1) && has_bit(reverse, 1) && !(has_bit(forward, 2) || has_bit(reverse, 2))
}

fn is_closing(forward: u8, reverse: u8) -> bool
    ensures { result ≡ lifetimes.is_closing forward reverse }
{
    has_bit(u32::from(forward), 0) && has_bit(u32::from(reverse), 0)
}

fn tcp_lifetime(settings: &Settings, forward: u8, reverse: u8) -> u32
    ensures { result ≡ lifetimes.tcp_lifetime (values_of settings.now) forward reverse }
{
    if is_opening(forward, reverse) {
        settings.syn
    } else if !is_open(forward, reverse) {
        settings.rst
    } else if is_closing(forward, reverse) {
        settings.fin
    } else {
        settings.ack
    }
}

/// How long a state lives from its last packet on, in seconds, 1 to 86,400.
pub(crate) fn lifetime(settings: &Settings, protocol: u8, forward: u8, reverse: u8) -> u32
    ensures value { result ≡ lifetimes.lifetime (values_of settings.now) protocol forward reverse }
    ensures at_least_one { 1 ≤ result }
{
    match protocol {
        TCP => tcp_lifetime(settings, forward, reverse),
        UDP => settings.udp,
        _ => settings.short,
    }
}

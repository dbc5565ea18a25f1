ghost use Rattle.std.specs.Prelude.{◌≡◌, false, ◌&&◌, ◌==◌, Some, length};
ghost use Rattle.rule_gates.specs.Gates.{IsGateOf, is_exact};
ghost use Rattle.rule_gates.specs.Covers.{IsExactGate, IsGateOfBody, IsOpen, TellsBody};
ghost use Rattle.rule_gates.specs.Told.{is_told_body};

use crate::address_gate::AddressGate;
use crate::addresses::addresses;
use crate::gate::PortGate;
use crate::ports::ports;
use crate::stateful::looks_up;
use crate::versions::narrower;
use crate::{Gate, Interval};
use fw_rule::{Body, Family, Rule};

/// The gate that admits every key.
fn open() -> Gate
    ensures opens { IsOpen result }
    ensures partial { is_exact result ≡ false }
{
    let every = Interval::every();
    Gate {
        source: every,
        destination: every,
        source_ports: every,
        destination_ports: every,
        source_word: 0,
        destination_word: 0,
        protocol: 0,
        family: Family::AnyIp,
        is_exact: false,
    }
}

/// Whether all parts of the body are told exactly; no gate tells of options.
fn is_told(
    body: &Body,
    source: &AddressGate,
    destination: &AddressGate,
    source_ports: &PortGate,
    destination_ports: &PortGate,
) -> bool
    ensures { result
        ≡ (source.now.is_exact && (destination.now.is_exact && (source_ports.now.is_exact
        && (destination_ports.now.is_exact && length body.now.options == 0)))) }
{
    source.is_exact
        && (destination.is_exact
            && (source_ports.is_exact
                && (destination_ports.is_exact && body.options.as_slice().is_empty())))
}

/// The gate that admits the keys of the packets that the body holds of.
fn body_gate(body: &Body) -> Gate
    ensures covers { IsGateOfBody body.now result }
    ensures tells { TellsBody body.now result }
    ensures exact { IsExactGate body.now result }
    ensures told { is_exact result ≡ is_told_body (Some body.now) }
{
    let source = addresses(&body.source, body.family);
    let destination = addresses(&body.destination, body.family);
    let source_ports = ports(&body.source_ports);
    let destination_ports = ports(&body.destination_ports);
    let family = narrower(body.family, narrower(source.family, destination.family));
    Gate {
        source: source.word.numbers,
        destination: destination.word.numbers,
        source_ports: source_ports.numbers,
        destination_ports: destination_ports.numbers,
        source_word: source.word.place,
        destination_word: destination.word.place,
        protocol: body.protocol,
        family,
        is_exact: is_told(
            body,
            &source,
            &destination,
            &source_ports,
            &destination_ports,
        ),
    }
}

/// The gate of the rule. One that looks packets up does so before its body is asked, so its gate is open.
pub(crate) fn gate_of(rule: &Rule) -> Gate
    ensures { IsGateOf rule.now result }
{
    if looks_up(rule) {
        return open();
    }
    match &rule.body {
        Some(body) => body_gate(body),
        None => open(),
    }
}

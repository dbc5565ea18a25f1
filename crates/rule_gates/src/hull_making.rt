ghost use Rattle.std.specs.Prelude.{◌<◌, IfOk, length, get_or, ℕ};
ghost use Rattle.rule_gates.specs.Hulls.{AreHulls, IsPart, IsPartOfFamily, IsPartOfProtocol, IsPartOfWord, IsUnder};
ghost use Rattle.rule_gates.specs.declared.gate.Gate.{Gate};

use crate::address_gate::ChosenWord;
use crate::gates::BLOCK;
use crate::{Gate, Interval};
use fw_base::OutOfMemory;
use fw_rule::Family;
use std::alloc::Global;

/// The least interval that has the numbers of both.
fn joined_numbers(one: Interval, other: Interval) -> Interval
    ensures first { IsPart one result }
    ensures second { IsPart other result }
{
    let low = one.low.min(other.low);
    let high = (one.low + one.span).max(other.low + other.span);
    Interval {
        low,
        span: high - low,
    }
}

/// The word and the numbers that either of them has; every number where they choose different words.
fn joined_words(one: ChosenWord, other: ChosenWord) -> ChosenWord
    ensures first { IsPartOfWord one result }
    ensures second { IsPartOfWord other result }
{
    if one.place != other.place {
        return ChosenWord {
            place: 0,
            numbers: Interval::every(),
        };
    }
    ChosenWord {
        place: one.place,
        numbers: joined_numbers(one.numbers, other.numbers),
    }
}

/// The protocol of both, or every protocol.
fn joined_protocol(one: u8, other: u8) -> u8
    ensures first { IsPartOfProtocol one result }
    ensures second { IsPartOfProtocol other result }
{
    if one == other { one } else { 0 }
}

/// The version of both, or every version.
fn joined_family(one: Family, other: Family) -> Family
    ensures first { IsPartOfFamily one result }
    ensures second { IsPartOfFamily other result }
{
    match (one, other) {
        (Family::Four, Family::Four) => Family::Four,
        (Family::Six, Family::Six) => Family::Six,
        _ => Family::AnyIp,
    }
}

/// The gate that admits what either of them admits; it tells of no rule.
fn joined(one: &Gate, other: &Gate) -> Gate
    ensures first { IsUnder one.now result }
    ensures second { IsUnder other.now result }
{
    let source = joined_words(one.source(), other.source());
    let destination = joined_words(one.destination(), other.destination());
    Gate {
        source: source.numbers,
        destination: destination.numbers,
        source_ports: joined_numbers(one.source_ports, other.source_ports),
        destination_ports: joined_numbers(one.destination_ports, other.destination_ports),
        source_word: source.place,
        destination_word: destination.place,
        protocol: joined_protocol(one.protocol, other.protocol),
        family: joined_family(one.family, other.family),
        is_exact: false,
    }
}

/// The hull of the gates.
fn hull_of(gates: &[Gate]) -> Gate
    requires { 0 < length gates.now }
    ensures { (place : ℕ) (any : Gate) → place < length gates.now
        → IsUnder (get_or gates.now place any) result }
{
    let mut hull = gates[0];
    for gate in gates {
        hull = joined(&hull, gate);
    }
    hull
}

/// A hull over each thirty-two gates in a row.
pub(crate) fn hulls_of(alloc: Global, gates: &[Gate]) -> Result<Vec<Gate>, OutOfMemory>
    ensures { IfOk result (λ hulls. AreHulls gates.now hulls.items) }
{
    let mut hulls = Vec::with_capacity(alloc, gates.len().div_ceil(BLOCK))?;
    let mut start = 0;
    while start < gates.len() {
        let end = (start + BLOCK).min(gates.len());
        hulls.push(hull_of(&gates[start..end]))?;
        start += BLOCK;
    }
    Ok(hulls)
}

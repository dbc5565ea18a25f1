ghost use Rattle.std.specs.Prelude.{◌≡◌, ℕ, true, ◌/◌, ◌^◌, ◌<◌, ◌≤◌};
ghost use Rattle.rule_gates.specs.Covers.{CoversAddresses, CoversItem, HasAddress, IsExactAddresses, IsExactItem, TellsAddresses, TellsItem, is_beside};
ghost use Rattle.rule_gates.specs.Told as spec;

use crate::Interval;
use crate::address_gate::{AddressGate, ChosenWord};
use crate::versions::has_four;
use crate::words::word;
use fw_rule::{AddrItem, AddrSpec, Family};

/// Every address.
fn every() -> ChosenWord
    ensures { (number : ℕ) → HasAddress result number }
{
    ChosenWord {
        place: 0,
        numbers: Interval::every(),
    }
}

/// The addresses that are this one but for that many last bits: the last word of which a bit is fixed is
/// chosen.
fn network(address: u128, host_bits: u8) -> ChosenWord
    requires { host_bits ≤ 128 }
    ensures covers { (number : ℕ) → number / 2 ^ host_bits ≡ address / 2 ^ host_bits
        → HasAddress result number }
    ensures tells { (number : ℕ) → host_bits ≤ 32 → address < 2 ^ 32 → number < 2 ^ 32
        → HasAddress result number
        → number / 2 ^ host_bits ≡ address / 2 ^ host_bits }
{
    if host_bits == 128 {
        return every();
    }
    let place = host_bits / 32;
    ChosenWord {
        place,
        numbers: Interval::block(word(place, address), host_bits % 32),
    }
}

/// The addresses of an element of a list, for a rule that asks for that version. Only addresses of IPv4 are
/// the host's own or in a table.
fn item(asked: &AddrItem, family: Family) -> AddressGate
    ensures covers { CoversItem asked.now result }
    ensures tells { TellsItem asked.now result.word }
    ensures exact { IsExactItem asked.now result }
    ensures told { result.is_exact ≡ spec.is_told_item family asked.now }
    ensures beside { result.is_exact ≡ true → is_beside family result.family ≡ true }
{
    match asked {
        AddrItem::Any => AddressGate {
            word: every(),
            family: Family::AnyIp,
            is_exact: true,
        },
        AddrItem::Net(prefix) => AddressGate {
            word: network(u128::from(prefix.address().0), 32 - prefix.length()),
            family: Family::Four,
            is_exact: has_four(family),
        },
        AddrItem::Net6(prefix) => AddressGate {
            word: network(prefix.address().0, 128 - prefix.length()),
            family: Family::Six,
            is_exact: false,
        },
        AddrItem::Me | AddrItem::InTable(_) | AddrItem::TableValue(_, _) => AddressGate {
            word: every(),
            family: Family::Four,
            is_exact: false,
        },
    }
}

/// The addresses that a rule of that version asks for: those of a single element, and every address where
/// the rule asks for more or for others.
pub(crate) fn addresses(asked: &AddrSpec, family: Family) -> AddressGate
    ensures covers { CoversAddresses asked.now result }
    ensures tells { TellsAddresses asked.now result.word }
    ensures exact { IsExactAddresses asked.now result }
    ensures told { result.is_exact ≡ spec.are_told_addresses family asked.now }
    ensures beside { result.is_exact ≡ true → is_beside family result.family ≡ true }
{
    match asked.items.as_slice() {
        [only] if !asked.negated => item(only, family),
        _ => AddressGate {
            word: every(),
            family: Family::AnyIp,
            is_exact: false,
        },
    }
}

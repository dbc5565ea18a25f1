ghost use Rattle.std.specs.Prelude.{◌≡◌, ◌+◌, ◌-◌, ◌*◌, ◌<◌, ◌≤◌, true, drop, length, get_or};
ghost use Rattle.std.specs.List.{position_or_len};
ghost use Rattle.rule_gates.specs.Gates as spec;
ghost use Rattle.rule_gates.specs.Hulls.{AreHulls, AreShut};
ghost use Rattle.rule_gates.specs.declared.gate.Gate.{Gate};

use crate::admission::admits;
use crate::gates::BLOCK;
use crate::{Gate, GateKey, Gates};

/// In a list of so many gates or fewer no hull is asked.
const FEW: usize = 64;

/// In a longer list so many gates are looked through before a hull is asked.
const FIRST: usize = 8;

/// So many where the search goes on behind a gate that admitted the key: where one does, others near it may.
const NEAR: usize = 32;

/// At most so many blocks are looked through before the next hull is asked.
const FAR: usize = 32;

/// The first place from this one on and before the end whose gate admits the key; else the end.
fn scan(gates: &[Gate], from: usize, end: usize, key: &GateKey) -> usize
    requires within { end ≤ length gates.now }
    ensures least { from ≤ result }
    ensures most { result - from ≤ end - from }
    ensures shut { AreShut key.now gates.now from result }
    ensures open { result < end → (any : Gate)
        → spec.admits (get_or gates.now result any) key.now ≡ true }
{
    let mut place = from;
    while place < end && !admits(&gates[place], key) {
        place += 1;
    }
    place
}

/// The gates that are looked through next: from this place on, but not before this block of thirty-two, that
/// many blocks.
fn stretch(place: usize, block: usize, blocks: usize, len: usize) -> (usize, usize)
    requires here { place < len }
    requires some { 0 < blocks }
    ensures start { place ≤ result.0 }
    ensures passed { place < result.0 → result.0 ≤ block * 32 }
    ensures order { result.0 ≤ result.1 }
    ensures end { result.1 ≤ len }
    ensures further { place < result.1 }
{
    let start = place.max(block.saturating_mul(BLOCK)).min(len);
    let end = (start / BLOCK)
        .saturating_add(blocks)
        .saturating_mul(BLOCK)
        .min(len);
    (start, end)
}

/// A place from this one on before which no hull admits the key, found by the hulls of the hulls.
fn next_hull(hulls: &[Gate], tops: &[Gate], from: usize, key: &GateKey) -> usize
    requires { AreHulls hulls.now tops.now }
    ensures { AreShut key.now hulls.now from result }
{
    let mut place = from;
    while place < hulls.len() {
        let block = scan(tops, place / BLOCK, tops.len(), key);
        let (start, end) = stretch(place, block, 1, hulls.len());
        let found = scan(hulls, start, end, key);
        if found < end {
            return found;
        }
        place = end;
    }
    place
}

/// How many blocks are looked through next: more and more while each next hull admits the key, as where
/// addresses stand in no order; there hulls tell nothing.
fn widened(blocks: usize, is_skipped: bool) -> usize
    ensures { 0 < result }
{
    if is_skipped {
        1
    } else {
        blocks.saturating_mul(2).clamp(1, FAR)
    }
}

/// A place from this one on before which no gate admits the key, found by the hulls.
fn next_covered(gates: &Gates, from: usize, key: &GateKey) -> usize
    ensures least { from ≤ result }
    ensures most { result - from ≤ length gates.now - 1 - from }
    ensures shut { AreShut key.now gates.now from result }
    ensures open { result < length gates.now - 1 → (any : Gate)
        → spec.admits (get_or gates.now result any) key.now ≡ true }
{
    let covered = gates.covered();
    let mut place = from;
    let mut blocks = 1;
    while place < covered.len() {
        let block = next_hull(&gates.hulls, &gates.tops, place / BLOCK, key);
        let (start, end) = stretch(place, block, blocks, covered.len());
        let found = scan(covered, start, end, key);
        if found < end {
            return found;
        }
        blocks = widened(blocks, place < start);
        place = end;
    }
    place
}

/// Where the gates end that are looked through before a hull is asked.
fn near_end(from: usize, len: usize) -> usize
    ensures { result ≤ len }
{
    if len <= FEW {
        len
    } else if from == 0 {
        FIRST
    } else {
        from.saturating_add(NEAR).min(len)
    }
}

/// The first place from this one on whose gate admits the key; the number of gates where none does.
pub fn next_admitted(gates: &Gates, from: usize, key: &GateKey) -> usize
    ensures { result ≡ from + position_or_len (λ gate. spec.admits gate key.now)
        (drop from gates.now) }
{
    let all = gates.as_slice();
    let end = near_end(from, all.len());
    let found = scan(all, from, end, key);
    if found < end {
        return found;
    }
    let place = next_covered(gates, found, key);
    if place < gates.covered().len() {
        return place;
    }
    scan(all, place, all.len(), key)
}

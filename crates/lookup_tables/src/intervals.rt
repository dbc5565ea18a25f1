ghost use Rattle.std.specs.Prelude.{◌≡◌, ◌+◌, ◌<◌, ◌≤◌, ◌^◌, [], MatchOption, IsSome, length, vec_len, vec_capacity};
ghost use Rattle.fw_base.specs.Prefix.{IsNetwork, size_of};
ghost use Rattle.lookup_tables.specs.AddrTable.{AddrEntries, network_cmp};
ghost use Rattle.lookup_tables.specs.Entries.{value_of, with_entry, without_key};
ghost use Rattle.lookup_tables.specs.Piece.{decider};
ghost use Rattle.lookup_tables.specs.Pieces.{AreEntries, AreKept, IsDivision, decided_within, piece_at};

use crate::Piece;
use crate::change::Change;
use crate::entries::place_of;
use crate::pieces::{change_pieces, cut_at, join_at, place_in};
use fw_base::{Addr, Prefix};

/// The address behind those of the prefix; none where 255.255.255.255 is one of them.
fn end_of(prefix: Prefix) -> Option<Addr>
    ensures network { IsNetwork prefix }
    ensures end { MatchOption result (2 ^ 32 ≤ prefix.address + size_of prefix.bits) (λ end. end.0
        ≡ prefix.address + size_of prefix.bits) }
{
    let size = 1u64 << (32 - prefix.length());
    let end = u64::from(prefix.address().0) + size;
    if end <= u64::from(u32::MAX) {
        Some(Addr(end as u32))
    } else {
        None
    }
}

/// The longest prefix of the address among those of at most that many bits, and its value.
fn longest_within(entries: &[(Prefix, u32)], address: Addr, bits: u8) -> Option<(Prefix, u32)>
    requires entries { AreEntries entries.now }
    requires bits { bits ≤ 32 }
    ensures { result ≡ decided_within entries.now address.0 bits }
{
    let Some(key) = Prefix::new(address, bits) else {
        return None;
    };
    match place_of(entries, &key) {
        Ok(place) => Some((key, entries[place].1)),
        Err(_) => {
            if bits == 0 {
                None
            } else {
                longest_within(entries, address, bits - 1)
            }
        }
    }
}

/// One piece of all addresses where there is none.
fn begin(pieces: &mut Vec<Piece>, prefix: Prefix)
    requires division { 0 < length pieces.old.items → IsDivision pieces.old.items }
    requires room { vec_len pieces.old < vec_capacity pieces.old }
    ensures division { IsDivision pieces.new.items }
    ensures same { 0 < length pieces.old.items → pieces.new.items ≡ pieces.old.items }
    ensures fresh { pieces.old.items ≡ []
        → (length pieces.new.items ≡ 1) × (decider (piece_at pieces.new.items 0) ≡ None) }
    ensures room { vec_len pieces.new + vec_capacity pieces.old
        ≤ vec_len pieces.old + 1 + vec_capacity pieces.new }
{
    if pieces.is_empty() {
        let piece = Piece {
            first: Addr(0),
            value: None,
            prefix,
        };
        // There is room, so that this succeeds.
        let _ = pieces.push(piece);
    }
}

/// Makes anew the pieces within a prefix that was put in, with its value.
pub(crate) fn put_prefix(pieces: &mut Vec<Piece>, prefix: Prefix, value: u32)
    requires division { 0 < length pieces.old.items → IsDivision pieces.old.items }
    requires room { vec_len pieces.old + 3 ≤ vec_capacity pieces.old }
    ensures network { IsNetwork prefix }
    ensures kept { (entries : AddrEntries) → AreEntries entries
        → value_of network_cmp entries prefix ≡ None → AreKept entries pieces.old.items
        → AreKept (with_entry network_cmp entries prefix value) pieces.new.items }
{
    begin(pieces, prefix);
    let start = cut_at(pieces, prefix.address());
    let change = Change::Put { prefix, value };
    match end_of(prefix) {
        Some(address) => {
            let end = cut_at(pieces, address);
            change_pieces(pieces, start, end, &change);
        }
        None => {
            let end = pieces.len();
            change_pieces(pieces, start, end, &change);
        }
    }
}

/// Makes anew the pieces within a prefix that was taken out; these entries are left.
pub(crate) fn take_prefix(pieces: &mut Vec<Piece>, entries: &[(Prefix, u32)], prefix: Prefix)
    requires division { IsDivision pieces.old.items }
    requires entries { AreEntries entries.now }
    ensures { (before : AddrEntries) → AreEntries before → (0 < length before)
        → IsSome (value_of network_cmp before prefix)
        → entries.now ≡ without_key network_cmp before prefix → AreKept before pieces.old.items
        → AreKept entries.now pieces.new.items }
{
    if entries.is_empty() {
        pieces.clear();
        return;
    }
    let next = longest_within(entries, prefix.address(), prefix.length());
    let start = place_in(pieces, prefix.address());
    let change = Change::Take { prefix, next };
    match end_of(prefix) {
        Some(address) => {
            let end = place_in(pieces, address);
            change_pieces(pieces, start, end, &change);
            join_at(pieces, address);
            join_at(pieces, prefix.address());
        }
        None => {
            let end = pieces.len();
            change_pieces(pieces, start, end, &change);
            join_at(pieces, prefix.address());
        }
    }
}

ghost use Rattle.std.specs.Prelude.{◌≡◌, ◌≢◌, ◌+◌, All, IfOk, OnOk, Some, length, map, true};
ghost use Rattle.std.specs.HashMap.{get, IsUnique};
ghost use Rattle.std.specs.List.Sorted.{IsPermutation};
ghost use Rattle.report_moves.specs.Moves as spec;
ghost use Rattle.report_moves.specs.Spans.{pair_eq};

use crate::{Span, spans_of};
use fw_base::OutOfMemory;
use fw_rule::Items;
use std::alloc::Global;
use std::cmp::Reverse;
use std::collections::HashMap;

/// The records of a capture that came to one outcome then and to one now, which may be the same.
#[derive(Clone, Copy)]
pub struct Move {
    /// The capture's number, from 1.
    pub capture: u64,
    /// The outcome then.
    pub was: u32,
    /// The outcome now.
    pub is: u32,
    pub span: Span,
}

/// What moved and what stayed, the most records first.
#[derive(Drop)]
pub struct Moves {
    pub moved: Vec<Move>,
    pub stayed: Vec<Move>,
}

/// The move of an entry.
fn move_of(capture: u64, pair: (u32, u32), span: Span) -> Move
    ensures { result ≡ spec.move_of capture (pair, span) }
{
    Move {
        capture,
        was: pair.0,
        is: pair.1,
        span,
    }
}

/// The moves of a capture, by its spans.
fn moves_in(
    alloc: Global,
    capture: u64,
    spans: &HashMap<(u32, u32), Span>,
) -> Result<Vec<Move>, OutOfMemory>
    ensures entries { IfOk result (λ moves. moves.items
        ≡ map (spec.move_of capture) spans.now.entries) }
    ensures found { All (λ entry. get pair_eq spans.now entry.0 ≡ Some entry.1) spans.now.entries }
    ensures unique { IsUnique pair_eq spans.now }
{
    let moves = spans
        .iter()
        .map(|(pair, span)| move_of(capture, *pair, *span))
        .collect(alloc)?;
    Ok(moves)
}

/// The moves of a capture.
fn capture_moves(
    alloc: Global,
    capture: u64,
    old: &[u32],
    new: &[u32],
) -> Result<Vec<Move>, OutOfMemory>
    requires { length old.now ≡ length new.now }
    ensures told { IfOk result (λ moves. All (spec.IsTold capture old.now new.now) moves.items) }
    ensures once { IfOk result (λ moves. spec.AreToldOnce moves.items) }
    ensures all { IfOk result (λ moves. spec.records_of moves.items ≡ length old.now) }
{
    let spans = spans_of(alloc, old, new)?;
    let moves = moves_in(alloc, capture, &spans)?;
    Ok(moves)
}

/// The moves of all captures.
fn all_moves(
    alloc: Global,
    old: &[Items<u32>],
    new: &[Items<u32>],
) -> Result<Vec<Move>, OutOfMemory>
    requires { spec.HaveSameLengths old.now new.now }
    ensures told { IfOk result (λ moves. All (spec.IsToldOf old.now new.now) moves.items) }
    ensures once { IfOk result (λ moves. spec.AreToldOnce moves.items) }
    ensures all { IfOk result (λ moves. spec.records_of moves.items ≡ spec.records_in old.now) }
{
    let mut moves = Vec::new(alloc);
    for (at, outcomes) in old.iter().enumerate() {
        let mut more = capture_moves(
            alloc,
            at as u64 + 1,
            outcomes.as_slice(),
            new[at].as_slice(),
        )?;
        moves.append(&mut more)?;
    }
    Ok(moves)
}

/// Puts the most records first, and of as many the first capture and the first record.
fn sort(moves: &mut Vec<Move>) -> Result<(), OutOfMemory>
    ensures same { IsPermutation moves.old.items moves.new.items }
    ensures order { OnOk result (spec.AreInOrder moves.new.items) }
{
    moves.sort_by_key(|told| (Reverse(told.span.records), told.capture, told.span.first))?;
    Ok(())
}

/// What moved and what stayed.
fn split(alloc: Global, moves: &[Move]) -> Result<Moves, OutOfMemory>
    ensures split { IfOk result (λ told.
        spec.IsSplit moves.now told.moved.items told.stayed.items) }
{
    let mut moved = Vec::new(alloc);
    let mut stayed = Vec::new(alloc);
    for told in moves {
        if told.was == told.is {
            stayed.push(*told)?;
        } else {
            moved.push(*told)?;
        }
    }
    Ok(Moves { moved, stayed })
}

/// What moved between the outcomes of the records of each capture, and what stayed.
pub fn moves_between(
    alloc: Global,
    old: &[Items<u32>],
    new: &[Items<u32>],
) -> Result<Moves, OutOfMemory>
    requires { spec.HaveSameLengths old.now new.now }
    // Each tells how many records of its capture came to its two outcomes, the first and the last.
    ensures moved { IfOk result (λ told. All (spec.IsToldOf old.now new.now) told.moved.items) }
    ensures stayed { IfOk result (λ told. All (spec.IsToldOf old.now new.now) told.stayed.items) }
    // None is told twice.
    ensures moved_once { IfOk result (λ told. spec.AreToldOnce told.moved.items) }
    ensures stayed_once { IfOk result (λ told. spec.AreToldOnce told.stayed.items) }
    // What moved came to another outcome, and what stayed to the same.
    ensures others { IfOk result (λ told. All (λ move. move.was ≢ move.is) told.moved.items) }
    ensures same { IfOk result (λ told. All (λ move. move.was ≡ move.is) told.stayed.items) }
    // The most records come first, and of as many the first capture and the first record.
    ensures moved_order { IfOk result (λ told. spec.AreInOrder told.moved.items) }
    ensures stayed_order { IfOk result (λ told. spec.AreInOrder told.stayed.items) }
    // Together they have as many records as the captures.
    ensures all { IfOk result (λ told. spec.records_of told.moved.items
        + spec.records_of told.stayed.items ≡ spec.records_in old.now) }
{
    let mut moves = all_moves(alloc, old, new)?;
    sort(&mut moves)?;
    let told = split(alloc, &moves)?;
    Ok(told)
}

/// Whether so many captures are there, each with as many records.
pub fn have_same_lengths(old: &[Items<u32>], new: &[Items<u32>]) -> bool
    ensures same { result ≡ true → spec.HaveSameLengths old.now new.now }
    ensures other { spec.HaveSameLengths old.now new.now → result ≡ true }
{
    if old.len() != new.len() {
        return false;
    }
    for (at, outcomes) in old.iter().enumerate() {
        if outcomes.as_slice().len() != new[at].as_slice().len() {
            return false;
        }
    }
    true
}

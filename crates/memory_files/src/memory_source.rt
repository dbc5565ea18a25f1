ghost use Rattle.std.specs.Prelude.{◌≡◌, ℕ, List, Option, None, Some, IsNone, IfSome, ◌<◌, ◌≤◌, [], IfOk, OnOk, OnErr, IsErr, ◌↔◌, ◌++◌, take, drop, length};
ghost use Rattle.std.specs.Option.{option_map};
ghost use Rattle.std.specs.Io.{ReadsAtMost};
ghost use Rattle.std.specs.Io.KnownBytes.{ReadConsumes};
ghost use Rattle.fw_base.specs.Faults.{HasCause};
ghost use Rattle.memory_files.specs.Memory.{MemoryBytes, count_given, after_given, after_failed, IsCut, IsTurnOf};
ghost use Rattle.memory_files.specs.Memory as spec;

use fw_base::{Failed, Source};
use std::marker::Model;

/// A source over bytes in memory, for tests: it gives them in pieces of stated sizes, and fails from a
/// stated place on.
#[derive(Drop)]
pub struct MemorySource {
    bytes: Vec<u8>,
    taken: usize,
    pieces: Vec<usize>,
    turn: usize,
    cut: Option<u64>,
    failures: u64,
}

impl Model for MemorySource {
    ghost use Rattle.std.specs.Prelude.{◌-◌, ◌<◌, ◌≤◌, drop, length, MatchOption, IfSome, ⊤, vec_len};
    ghost use Rattle.std.specs.Option.{option_map};
    ghost use Rattle.memory_files.specs.Memory.{MemoryBytes, IsTurnOf};

    ghost Value = { MemoryBytes };

    ghost view = { λ s. record {
      left = drop s.taken s.bytes.items;
      pieces = s.pieces.items;
      turn = s.turn;
      allowed = option_map (λ cut. cut - s.taken) s.cut;
      failures = s.failures;
    } };

    ghost invariant = { λ s. (s.taken ≤ vec_len s.bytes) × IsTurnOf s.pieces.items s.turn
        × IfSome s.cut (λ cut. s.taken ≤ cut) };
}

impl MemorySource {
    /// The source of these bytes. Each call gives at most the next of the piece sizes, in a circle; a
    /// size of 0 counts as 1, and with no sizes a call gives as much as fits. With `cut`, each call
    /// fails once that many bytes were given.
    pub fn new(bytes: Vec<u8>, pieces: Vec<usize>, cut: Option<u64>) -> MemorySource
        ensures { result ≡ record {
          left = bytes.items;
          pieces = pieces.items;
          turn = 0;
          allowed = cut;
          failures = 0;
        } }
    {
        MemorySource {
            bytes,
            taken: 0,
            pieces,
            turn: 0,
            cut,
            failures: 0,
        }
    }

    /// The bytes that are left.
    fn rest(&self) -> &[u8]
        ensures { result.now ≡ self.now.left }
    {
        &self.bytes[self.taken..]
    }

    /// How many bytes the next call gives for a buffer of that length; `None` where it fails.
    fn available(&self, room: usize) -> Option<usize>
        ensures cut { IsNone result ↔ IsCut self.now }
        ensures count { IfSome result (λ count. count ≡ count_given self.now room) }
        ensures within { IfSome result (λ count. (count ≤ room) × (count ≤ length self.now.left)) }
        ensures end { IfSome result (λ count. count ≡ 0 → 0 < room → self.now.left ≡ []) }
    {
        let count = room.min(self.bytes.len() - self.taken);
        let count = within_piece(&self.pieces, self.turn, count);
        match self.cut {
            None => Some(count),
            Some(cut) => {
                let allowed = cut - self.taken as u64;
                if allowed == 0 {
                    return None;
                }
                Some((count as u64).min(allowed) as usize)
            }
        }
    }
}

/// At most this many of `count` bytes come, by the piece whose turn it is.
fn within_piece(pieces: &[usize], turn: usize, count: usize) -> usize
    requires { IsTurnOf pieces.now turn }
    ensures value { result ≡ spec.within_piece pieces.now turn count }
    ensures within { result ≤ count }
    ensures advances { 0 < count → 0 < result }
{
    match pieces {
        [] => count,
        _ => count.min(pieces[turn].max(1)),
    }
}

/// The place of the piece after this one.
fn next_turn(pieces: &[usize], turn: usize) -> usize
    requires { IsTurnOf pieces.now turn }
    ensures value { result ≡ spec.next_turn pieces.now turn }
    ensures within { IsTurnOf pieces.now result }
{
    match pieces {
        [] => turn,
        _ => (turn + 1) % pieces.len(),
    }
}

/// Writes the first `count` bytes of `from` over those of `to`.
fn copy_front(from: &[u8], to: &mut [u8], count: usize)
    requires { (count ≤ length from.now) × (count ≤ length to.old) }
    ensures { to.new ≡ take count from.now ++ drop count to.old }
{
    to[..count].copy_from_slice(&from[..count]);
}

impl Source for MemorySource {
    ghost left = { λ s. Some s.left };

    ghost faults = { λ s. s.failures };

    fn read(&mut self, buf: &mut [u8]) -> Result<usize, Failed>
        ensures bound { ReadsAtMost result buf.new }
        ensures bytes { ReadConsumes (Some self.old.left) (Some self.new.left) result buf.new }
        ensures cause { HasCause self.old.failures self.new.failures result }
        ensures steady { OnOk result (self.new.failures ≡ self.old.failures) }

        // Which it is, how many bytes come, and what is left.
        ensures cut { IsErr result ↔ IsCut self.old }
        ensures count { IfOk result (λ count. count ≡ count_given self.old (length buf.old)) }
        ensures given { IfOk result (λ count. self.new ≡ after_given self.old count) }
        ensures failed { OnErr result (self.new ≡ after_failed self.old) }
    {
        let Some(count) = self.available(buf.len()) else {
            self.failures = self.failures.saturating_add(1);
            return Err(Failed);
        };
        copy_front(self.rest(), buf, count);
        self.taken += count;
        self.turn = next_turn(&self.pieces, self.turn);
        Ok(count)
    }

    fn faults(&self) -> u64 {
        self.failures
    }
}

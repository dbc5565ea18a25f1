ghost use Rattle.std.specs.Prelude.{◌≡◌, ◌<◌, ◌≤◌, IfOk, length};
ghost use Rattle.std.specs.List.{list_all};
ghost use Rattle.run_audit.specs.AskStands as spec;

use crate::sweep::{NAMED_LANES, Sweep};
use fw_base::OutOfMemory;
use state_asks::{Op, Reply};
use state_journal::Entry;
use std::alloc::Global;

/// An ask of the journal, as its place is tested.
#[derive(Clone, Copy)]
pub(crate) struct AskStand {
    pub(crate) lane: u16,
    /// The record that it is of.
    pub(crate) at: u64,
    /// Its place among the journal's entries.
    pub(crate) place: usize,
    /// The last publication before it.
    pub(crate) after: u64,
    /// Whether it stands behind an ask of a later record of its lane.
    pub(crate) is_late: bool,
}

/// The asks of a journal in its order; its entries may name so many lanes.
fn stands_with(alloc: Global, lanes: usize, entries: &[Entry]) -> Result<Vec<AskStand>, OutOfMemory>
    requires { lanes ≡ spec.most_lanes }
    ensures { IfOk result (λ stands. stands.items
        ≡ spec.stands_from (spec.no_sweep lanes) 0 entries.now) }
{
    let mut sweep = Sweep::new(alloc, lanes)?;
    let mut stands = Vec::new(alloc);
    for (place, entry) in entries.iter().enumerate() {
        if let Some(stand) = sweep.take(place, entry) {
            stands.push(stand)?;
        }
    }
    Ok(stands)
}

/// The asks of a journal, in its order.
pub(crate) fn ask_stands(alloc: Global, entries: &[Entry]) -> Result<Vec<AskStand>, OutOfMemory>
    ensures { IfOk result (λ stands. stands.items ≡ spec.stands_of entries.now) }
{
    stands_with(alloc, NAMED_LANES, entries)
}

/// What an entry asks, and what is answered, where it is an ask.
fn asked_by(entry: &Entry) -> Option<(Op, Reply)>
    ensures { result ≡ spec.asked_by entry.now }
{
    match entry {
        Entry::Publish(_) => None,
        Entry::Ask { op, reply, .. } => Some((*op, *reply)),
    }
}

/// What is asked in this place of a journal, and what is answered.
fn asked_at(entries: &[Entry], place: usize) -> Option<(Op, Reply)>
    ensures { result ≡ spec.asked_at entries.now place }
{
    match entries.get(place) {
        Some(entry) => asked_by(entry),
        None => None,
    }
}

/// What these ask, with their answers.
pub(crate) fn asked_by_each(
    alloc: Global,
    entries: &[Entry],
    stands: &[AskStand],
) -> Result<Vec<(Op, Reply)>, OutOfMemory>
    ensures { IfOk result (λ asked. asked.items ≡ spec.asked_by_each entries.now stands.now) }
{
    let mut asked = Vec::new(alloc);
    for stand in stands {
        if let Some(ask) = asked_at(entries, stand.place) {
            asked.push(ask)?;
        }
    }
    Ok(asked)
}

/// Whether each of these was made under this edition, and none behind one of a later record of its
/// lane.
pub(crate) fn are_timely(stands: &[AskStand], edition: u64) -> bool
    ensures { result ≡ list_all (spec.is_timely edition) stands.now }
{
    stands
        .iter()
        .all(|stand| stand.after == edition && !stand.is_late)
}

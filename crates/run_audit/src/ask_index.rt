ghost use Rattle.std.specs.Prelude.{◌≡◌, Ok, None, IfOk, IfSome, OnSome, filter, map, slice_get};
ghost use Rattle.fw_world.specs.Asks.{asks_of_record, lane_asks};
ghost use Rattle.state_journal.specs.Journal.{IsJournal};
ghost use Rattle.run_audit.specs.AskStands.{asked_of, is_asked_for, stands_of};
ghost use Rattle.run_audit.specs.Indexes as spec;
ghost use Rattle.run_audit.specs.Judging.{AreTimely};
ghost use Rattle.run_audit.specs.Numbering.{numbered_from, picked};

use crate::ask_stands::{AskStand, are_timely, ask_stands, asked_by_each};
use crate::numbered::{Numbered, in_order, of_number};
use fw_base::OutOfMemory;
use state_asks::{Op, Reply};
use state_journal::{Book, Entry};
use std::alloc::Global;
use std::marker::Model;

/// The journal, whose asks are found by their record.
#[derive(Drop)]
pub(crate) struct AskIndex {
    alloc: Global,
    book: Book,
    stands: Vec<AskStand>,
    by_number: Vec<Numbered>,
}

impl Model for AskIndex {
    ghost use Rattle.std.specs.Prelude.{◌≡◌};
    ghost use Rattle.state_journal.specs.Journal.{Journal, IsJournal};
    ghost use Rattle.run_audit.specs.AskStands.{stands_of};
    ghost use Rattle.run_audit.specs.Indexes.{stand_number};
    ghost use Rattle.run_audit.specs.Numbering.{numbered_from, AreInOrderOf};

    ghost Value = { Journal };

    ghost view = { λ a. a.book };

    ghost invariant = { λ a.
        (a.stands.items ≡ stands_of a.book.entries)
        × AreInOrderOf (numbered_from stand_number 0 a.stands.items) a.by_number.items
        × IsJournal a.book };
}

/// The asks by the numbers of their records.
fn numbered_asks(alloc: Global, stands: &[AskStand]) -> Result<Vec<Numbered>, OutOfMemory>
    ensures { IfOk result (λ numbered. numbered.items
        ≡ numbered_from spec.stand_number 0 stands.now) }
{
    let mut numbered = Vec::with_capacity(alloc, stands.len())?;
    for (place, stand) in stands.iter().enumerate() {
        let at = stand.at;
        numbered.push(Numbered { at, place })?;
    }
    Ok(numbered)
}

/// The ask in this place.
fn stand_at(stands: &[AskStand], place: usize) -> Option<AskStand>
    ensures { result ≡ slice_get stands.now place }
{
    stands.get(place).copied()
}

/// The asks in these places that are of this lane.
fn asks_of_lane(
    alloc: Global,
    stands: &[AskStand],
    places: &[Numbered],
    lane: u16,
) -> Result<Vec<AskStand>, OutOfMemory>
    ensures { IfOk result (λ own. own.items
        ≡ filter (spec.is_of_lane lane) (picked stands.now places.now)) }
{
    let mut own = Vec::new(alloc);
    for one in places {
        if let Some(stand) = stand_at(stands, one.place) {
            if stand.lane == lane {
                own.push(stand)?;
            }
        }
    }
    Ok(own)
}

impl AskIndex {
    /// The index of this journal.
    pub(crate) fn new(alloc: Global, book: Book) -> Result<AskIndex, OutOfMemory>
        ensures { IfOk result (λ index. index ≡ book) }
    {
        let stands = ask_stands(alloc, book.entries())?;
        let by_number = in_order(numbered_asks(alloc, &stands)?)?;
        Ok(AskIndex {
            alloc,
            book,
            stands,
            by_number,
        })
    }

    /// What takes memory for it.
    pub(crate) fn alloc(&self) -> Global {
        self.alloc
    }

    /// The entries of the journal.
    pub(crate) fn entries(&self) -> &[Entry]
        ensures { result.now ≡ self.now.entries }
    {
        self.book.entries()
    }

    /// The journal alone, which is one that the states met.
    pub(crate) fn into_book(self) -> Book
        ensures value { result ≡ self }
        ensures lawful { IsJournal self }
    {
        self.book
    }

    /// The asks of this record, in the journal's order.
    fn own(&self, lane: u16, at: u64) -> Result<Vec<AskStand>, OutOfMemory>
        ensures { IfOk result (λ own. own.items
            ≡ filter (is_asked_for lane at) (stands_of self.now.entries)) }
    {
        asks_of_lane(
            self.alloc,
            &self.stands,
            of_number(&self.by_number, at),
            lane,
        )
    }

    /// What is asked for this record, with the answers, in the journal's order; `None` where an ask
    /// of it stands under another edition than this one, or behind an ask of a later record of its
    /// lane.
    pub(crate) fn timely_asks(
        &self,
        lane: u16,
        at: u64,
        edition: u64,
    ) -> Result<Option<Vec<(Op, Reply)>>, OutOfMemory>
        ensures asked { IfOk result (λ found. IfSome found (λ asked. asked.items
            ≡ map asked_of (asks_of_record at (lane_asks lane self.now.entries)))) }
        ensures timely { IfOk result (λ found. OnSome found
            (AreTimely (lane_asks lane self.now.entries) at edition)) }
        ensures late { result ≡ Ok None
            → AreTimely (lane_asks lane self.now.entries) at edition → ⊥ }
    {
        let own = self.own(lane, at)?;
        if !are_timely(&own, edition) {
            return Ok(None);
        }
        Ok(Some(asked_by_each(self.alloc, self.book.entries(), &own)?))
    }
}

ghost use Rattle.std.specs.Prelude.{◌≡◌, ◌<◌, ◌+◌, ◌^◌, ◌++◌, true, false, None, Some, Ok, List, IfOk, IfSome, IsSome, IsSomeAnd, length, map};
ghost use Rattle.std.specs.Arc.{arc_value};
ghost use Rattle.std.specs.Option.{option_map};
ghost use Rattle.eval_engine.specs.declared.docket_entry.DocketEntry.{DocketEntry};
ghost use Rattle.fw_world.specs.Editions.{edition_numbered};
ghost use Rattle.fw_world.specs.Inputs.{Packet};
ghost use Rattle.fw_world.specs.Tallies.{Hit, IsTallyOf, record_hits};
ghost use Rattle.report_reading.specs.RecordLines.{printed};
ghost use Rattle.state_journal.specs.Journal.{IsJournal};
ghost use Rattle.run_audit.specs.Judging.{IsToldSo, asks_told, line_naming, number_or_last};
ghost use Rattle.run_audit.specs.OtherLines.{lane_naming};
ghost use Rattle.run_audit.specs.ToldValues.{value_of_report};

use crate::ask_index::AskIndex;
use crate::lane_index::LaneIndex;
use crate::record_index::RecordIndex;
use crate::record_name::RecordName;
use crate::told_entries::{is_told_as, judged_under};
use crate::told_report::ToldReport;
use counter_book::Tally;
use eval_engine::DocketEntry;
use fw_base::{OutOfMemory, Port};
use generation_store::Edition;
use ip6_headers::AnyIp;
use report_reading::LaneLine;
use state_journal::Book;
use std::alloc::Global;
use std::marker::Model;
use std::sync::Arc;

/// What a report tells that has its form and its journal, found by record.
#[derive(Drop)]
pub(crate) struct Told {
    pub(crate) editions: Vec<Arc<Edition>>,
    pub(crate) asks: AskIndex,
    ask_lines: Vec<u64>,
    pub(crate) records: RecordIndex,
    pub(crate) lanes: LaneIndex,
    lines: u64,
}

impl Model for Told {
    ghost use Rattle.std.specs.Prelude.{◌<◌, ◌+◌, ◌^◌, map};
    ghost use Rattle.std.specs.Arc.{arc_value};
    ghost use Rattle.run_audit.specs.Judging.{ToldValue};

    ghost Value = { ToldValue };

    ghost view = { λ t. record {
      editions = map arc_value t.editions.items;
      journal = t.asks;
      records = t.records;
      lanes = t.lanes;
      ask_lines = t.ask_lines.items;
      lines = t.lines;
    } };

    ghost invariant = { λ t. t.lines + 1 < 2 ^ 64 };
}

/// The edition of this number, from 1.
fn edition_numbered(editions: &[Arc<Edition>], number: u64) -> Option<&Edition>
    ensures { option_map (λ edition. edition.now) result
        ≡ edition_numbered (map arc_value editions.now) number }
{
    match editions.get(number.saturating_sub(1) as usize) {
        Some(edition) => Some(edition),
        None => None,
    }
}

impl Told {
    /// What this report tells.
    pub(crate) fn new(alloc: Global, told: ToldReport) -> Result<Told, OutOfMemory>
        requires { told.lines + 1 < 2 ^ 64 }
        ensures { IfOk result (λ found. found ≡ value_of_report told) }
    {
        let ToldReport {
            editions,
            book,
            ask_lines,
            records,
            lanes,
            lines,
        } = told;
        Ok(Told {
            editions,
            asks: AskIndex::new(alloc, book)?,
            ask_lines,
            records: RecordIndex::new(alloc, records)?,
            lanes: LaneIndex::new(alloc, lanes)?,
            lines,
        })
    }

    /// The number of the line of a record, the first that names it; where none does, it is one past
    /// the last.
    pub(crate) fn line_of(&self, name: RecordName) -> u64
        ensures { result ≡ number_or_last self.now (line_naming self.now name.lane name.at) }
    {
        match self.records.naming(u64::from(name.lane), name.at) {
            Some(one) => one.line,
            None => self.lines + 1,
        }
    }

    /// What the first line of a lane tells, where it has one.
    pub(crate) fn section_line(&self, lane: u64) -> LaneLine
        requires { IsSome (lane_naming self.now lane) }
        ensures { IsSomeAnd (lane_naming self.now lane) (λ one. one.told ≡ result) }
    {
        self.lanes.naming(lane).unwrap().told
    }

    /// What takes memory for it.
    pub(crate) fn alloc(&self) -> Global {
        self.asks.alloc()
    }

    /// The editions and the journal alone.
    pub(crate) fn into_parts(self) -> (Vec<Arc<Edition>>, Book)
        ensures editions { map arc_value result.0.items ≡ self.editions }
        ensures journal { result.1 ≡ self.journal }
        ensures lawful { IsJournal self.journal }
    {
        (self.editions, self.asks.into_book())
    }

    /// What stands one past the last line.
    pub(crate) fn behind(&self) -> u64
        ensures { result ≡ self.now.lines + 1 }
    {
        self.lines + 1
    }

    /// Whether the line of a record is that of this entry.
    pub(crate) fn is_line_of(&self, name: RecordName, entry: &DocketEntry) -> bool
        ensures told { result ≡ true → IsSomeAnd (line_naming self.now name.lane name.at)
            (λ one. one.told.entry ≡ printed entry.now) }
        ensures untold { result ≡ false → IsSomeAnd (line_naming self.now name.lane name.at)
            (λ one. one.told.entry ≡ printed entry.now) → ⊥ }
    {
        match self.records.naming(u64::from(name.lane), name.at) {
            Some(one) => is_told_as(&one.told.entry, entry),
            None => false,
        }
    }

    /// The entry of a packet's record, where the report tells it so; its hits are counted. Where it
    /// doesn't, some may be.
    pub(crate) fn judge(
        &self,
        name: RecordName,
        packet: &AnyIp<'_>,
        port: &Port,
        second: u32,
        tally: &mut Tally,
    ) -> Result<Option<DocketEntry>, OutOfMemory>
        ensures told { IfOk result (λ found. IfSome found
            (IsToldSo self.now name.lane name.at (Packet packet.now port.now second))) }
        ensures counted { IfOk result (λ found. IfSome found (λ entry. (hits : List Hit)
            → IsTallyOf hits tally.old → IsTallyOf (hits ++ record_hits self.now.editions
            (asks_told self.now name.lane) name.at (Packet packet.now port.now second) entry)
            tally.new)) }
        ensures untold { result ≡ Ok None → (entry : DocketEntry)
            → IsToldSo self.now name.lane name.at (Packet packet.now port.now second) entry → ⊥ }
    {
        let Some(one) = self.records.naming(u64::from(name.lane), name.at) else {
            return Ok(None);
        };
        let Some(told) = one.told.entry.judgement() else {
            return Ok(None);
        };
        let Some(edition) = edition_numbered(&self.editions, told.edition) else {
            return Ok(None);
        };
        let Some(asked) = self.asks.timely_asks(name.lane, name.at, told.edition)? else {
            return Ok(None);
        };
        let Some(judgement) = judged_under(edition, packet, port, second, &asked, tally)? else {
            return Ok(None);
        };
        let entry = DocketEntry::judged(judgement);
        if is_told_as(&one.told.entry, &entry) {
            Ok(Some(entry))
        } else {
            Ok(None)
        }
    }
}

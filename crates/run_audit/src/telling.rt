ghost use Rattle.std.specs.Prelude.{◌≡◌, ◌≤◌, ◌+◌, ◌++◌, [], None, Ok, true, false, IfOk, IfErr, OnOk, is_some, length, map};
ghost use Rattle.std.specs.Arc.{arc_value};
ghost use Rattle.report_reading.specs.Lines.{lines_with_ends};
ghost use Rattle.report_reading.specs.Readings.{line_value, reading_of};
ghost use Rattle.run_audit.specs.AuditFaults.{NamesLine};
ghost use Rattle.run_audit.specs.JournalTold.{with_line, at_the_end, wrong_line};
ghost use Rattle.run_audit.specs.Replaying.{AreNumbered, IsAskInRange};
ghost use Rattle.run_audit.specs.Telling.{IsUnder, TakesLine, journal_of};
ghost use Rattle.run_audit.specs.ToldReport.{told_by, with_record, with_lane, with_ask_line};

use crate::AuditFault;
use crate::begun_book::replay_told;
use crate::told_report::{ToldLane, ToldRecord, ToldReport};
use fw_base::OutOfMemory;
use generation_store::Edition;
use report_reading::{Reading, read_line};
use state_journal::Book;
use std::alloc::Global;
use std::sync::Arc;

/// What the lines of a report tell, as far as they were read.
#[derive(Drop)]
pub(crate) struct Telling {
    /// The states with the journal so far; none before the first publication.
    pub(crate) book: Option<Book>,
    pub(crate) ask_lines: Vec<u64>,
    pub(crate) records: Vec<ToldRecord>,
    pub(crate) lanes: Vec<ToldLane>,
}

impl Telling {
    /// What no line tells.
    pub(crate) fn new(alloc: Global) -> Telling
        ensures book { result.book ≡ None }
        ensures asks { result.ask_lines.items ≡ [] }
        ensures records { result.records.items ≡ [] }
        ensures lanes { result.lanes.items ≡ [] }
    {
        Telling {
            book: None,
            ask_lines: Vec::new(alloc),
            records: Vec::new(alloc),
            lanes: Vec::new(alloc),
        }
    }

    /// Keeps what the line of this number tells, beside the journal.
    fn keep(&mut self, line: u64, told: &Reading<'_>) -> Result<(), OutOfMemory>
        ensures book { OnOk result (self.new.book ≡ self.old.book) }
        ensures records { OnOk result (self.new.records.items
            ≡ self.old.records.items ++ with_record line (line_value told.now) []) }
        ensures lanes { OnOk result (self.new.lanes.items
            ≡ self.old.lanes.items ++ with_lane line (line_value told.now) []) }
        ensures asks { OnOk result (self.new.ask_lines.items
            ≡ self.old.ask_lines.items ++ with_ask_line line (line_value told.now) []) }
    {
        match told {
            Reading::Record(told) => self.records.push(ToldRecord { line, told: *told })?,
            Reading::Ask(_) => self.ask_lines.push(line)?,
            Reading::Lane(told) => self.lanes.push(ToldLane { line, told: *told })?,
            Reading::Published(_) | Reading::Other => {}
        }
        Ok(())
    }

    /// Takes in what the line of this number tells; whether it is right beside the lines before it.
    fn take(
        &mut self,
        alloc: Global,
        editions: &[Arc<Edition>],
        line: u64,
        told: &Reading<'_>,
    ) -> Result<bool, OutOfMemory>
        requires numbered { AreNumbered (map arc_value editions.now) }
        requires under { IsUnder (map arc_value editions.now) self.old.book }
        requires told { IsAskInRange (line_value told.now) }
        ensures taken { result ≡ Ok true
            → TakesLine (map arc_value editions.now) line (line_value told.now) self.old self.new }
        ensures under { result ≡ Ok true → IsUnder (map arc_value editions.now) self.new.book }
        ensures wrong { result ≡ Ok false
            → with_line (map arc_value editions.now) (line_value told.now)
            (journal_of self.old.book) ≡ None }
    {
        if !replay_told(&mut self.book, alloc, editions, told)? {
            return Ok(false);
        }
        self.keep(line, told)?;
        Ok(true)
    }

    /// Takes in the line of this number; whether it has a form and is right beside the lines before
    /// it.
    pub(crate) fn take_line(
        &mut self,
        alloc: Global,
        editions: &[Arc<Edition>],
        line: u64,
        text: &[u8],
    ) -> Result<bool, OutOfMemory>
        requires numbered { AreNumbered (map arc_value editions.now) }
        requires under { IsUnder (map arc_value editions.now) self.old.book }
        ensures taken { result ≡ Ok true
            → TakesLine (map arc_value editions.now) line (told_by text.now) self.old self.new }
        ensures formed { result ≡ Ok true → is_some (reading_of text.now) ≡ true }
        ensures under { result ≡ Ok true → IsUnder (map arc_value editions.now) self.new.book }
        ensures wrong { result ≡ Ok false → is_some (reading_of text.now) ≡ true
            → with_line (map arc_value editions.now) (told_by text.now) (journal_of self.old.book)
            ≡ None }
    {
        match read_line(text) {
            Some(told) => self.take(alloc, editions, line, &told),
            None => Ok(false),
        }
    }
}

ghost use Rattle.std.specs.Prelude.{◌≡◌, IfOk, find, slice_get};
ghost use Rattle.run_audit.specs.Indexes as spec;
ghost use Rattle.run_audit.specs.Judging.{names_record};
ghost use Rattle.run_audit.specs.Numbering.{numbered_from, picked};

use crate::numbered::{Numbered, in_order, of_number};
use crate::told_report::ToldRecord;
use fw_base::OutOfMemory;
use std::alloc::Global;
use std::marker::Model;

/// The lines of records, found by the record that they name. Contracts see them in the report's
/// order.
#[derive(Drop)]
pub(crate) struct RecordIndex {
    records: Vec<ToldRecord>,
    by_number: Vec<Numbered>,
}

impl Model for RecordIndex {
    ghost use Rattle.std.specs.Prelude.{List};
    ghost use Rattle.run_audit.specs.Indexes.{record_number};
    ghost use Rattle.run_audit.specs.Numbering.{numbered_from, AreInOrderOf};
    ghost use Rattle.run_audit.specs.declared.told_report.ToldRecord.{ToldRecord};

    ghost Value = { List ToldRecord };

    ghost view = { λ r. r.records.items };

    ghost invariant = { λ r.
        AreInOrderOf (numbered_from record_number 0 r.records.items) r.by_number.items };
}

/// The lines by the numbers of their records.
fn numbered_records(alloc: Global, records: &[ToldRecord]) -> Result<Vec<Numbered>, OutOfMemory>
    ensures { IfOk result (λ numbered. numbered.items
        ≡ numbered_from spec.record_number 0 records.now) }
{
    let mut numbered = Vec::with_capacity(alloc, records.len())?;
    for (place, record) in records.iter().enumerate() {
        let at = record.told.at;
        numbered.push(Numbered { at, place })?;
    }
    Ok(numbered)
}

/// The line in this place.
fn record_at(records: &[ToldRecord], place: usize) -> Option<ToldRecord>
    ensures { result ≡ slice_get records.now place }
{
    records.get(place).copied()
}

/// The first line in these places that is of this capture.
fn first_of_capture(records: &[ToldRecord], places: &[Numbered], capture: u64) -> Option<ToldRecord>
    ensures { result ≡ find (spec.is_of_capture capture) (picked records.now places.now) }
{
    for one in places {
        if let Some(record) = record_at(records, one.place) {
            if record.told.capture == capture {
                return Some(record);
            }
        }
    }
    None
}

impl RecordIndex {
    /// The index of these lines.
    pub(crate) fn new(alloc: Global, records: Vec<ToldRecord>) -> Result<RecordIndex, OutOfMemory>
        ensures { IfOk result (λ index. index ≡ records.items) }
    {
        let by_number = in_order(numbered_records(alloc, &records)?)?;
        Ok(RecordIndex { records, by_number })
    }

    /// All lines, in the report's order.
    pub(crate) fn all(&self) -> &[ToldRecord]
        ensures { result.now ≡ self.now }
    {
        &self.records
    }

    /// The first line that names this record.
    pub(crate) fn naming(&self, capture: u64, at: u64) -> Option<ToldRecord>
        ensures { result ≡ find (names_record capture at) self.now }
    {
        first_of_capture(&self.records, of_number(&self.by_number, at), capture)
    }
}

ghost use Rattle.std.specs.Prelude.{◌≡◌, ◌+◌, ◌≤◌, ◌++◌, ◌∷◌, [], ℕ, IfOk, IfErr, IsSome, OnOk, length};
ghost use Rattle.run_audit.specs.Audit.{AreSectionsTold};
ghost use Rattle.run_audit.specs.AuditFaults.{NamesLine};
ghost use Rattle.run_audit.specs.Closing.{IsMadeOf};
ghost use Rattle.run_audit.specs.JudgingValues.{entries_of_each, judging_value};
ghost use Rattle.run_audit.specs.LeftOver.{first_behind};
ghost use Rattle.run_audit.specs.NothingLeft.{IsKeptOf};
ghost use Rattle.run_audit.specs.OtherLines.{lane_naming};
ghost use Rattle.run_audit.specs.ToldReport.{lines_told};

use crate::judging::Judging;
use crate::left_over::first_behind;
use crate::told::Told;
use crate::{AuditFault, Rebuilt};
use eval_engine::Docket;
use fw_base::OutOfMemory;
use report_texts::LineAnswer;
use std::alloc::Global;

/// The dockets of lanes with what was refused to them, and the lanes' tracker words.
#[derive(Drop)]
struct Sections {
    dockets: Vec<Docket>,
    trackers: Vec<u64>,
}

/// The docket with so many refused entries. They are counted one by one, which is all that a docket
/// offers: a lane's line that passed tells fewer than there are editions.
fn with_refused(mut docket: Docket, refused: u64) -> Docket
    ensures { result ≡ record docket { refused = refused } }
{
    let before = docket.refused();
    for _ in 0..refused.wrapping_sub(before) {
        docket.refuse();
    }
    docket
}

/// Adds the next lane with the sections that its line tells.
fn add_lane(sections: &mut Sections, told: &Told, docket: Docket) -> Result<(), OutOfMemory>
    requires { IsSome (lane_naming told.now (length sections.old.trackers.items + 1)) }
    ensures entries { OnOk result (entries_of_each sections.new.dockets.items
        ≡ entries_of_each sections.old.dockets.items ++ docket.entries ∷ []) }
    ensures told { OnOk result
        (AreSectionsTold told.now 1 sections.old.dockets.items sections.old.trackers.items
        → AreSectionsTold told.now 1 sections.new.dockets.items sections.new.trackers.items) }
    ensures count { OnOk result
        (length sections.new.trackers.items ≡ length sections.old.trackers.items + 1) }
{
    let line = told.section_line(sections.trackers.len() as u64 + 1);
    sections.trackers.push(line.tracker)?;
    sections.dockets.push(with_refused(docket, line.refused))?;
    Ok(())
}

/// These dockets with the sections that the lines of their lanes tell, of which each has one.
fn sections_told(alloc: Global, told: &Told, dockets: Vec<Docket>) -> Result<Sections, OutOfMemory>
    requires { (lane : ℕ) → 1 ≤ lane → lane ≤ length dockets.items
        → IsSome (lane_naming told.now lane) }
    ensures entries { IfOk result (λ sections. entries_of_each sections.dockets.items
        ≡ entries_of_each dockets.items) }
    ensures told { IfOk result (λ sections.
        AreSectionsTold told.now 1 sections.dockets.items sections.trackers.items) }
{
    let mut sections = Sections {
        dockets: Vec::with_capacity(alloc, dockets.len())?,
        trackers: Vec::with_capacity(alloc, dockets.len())?,
    };
    for docket in dockets {
        add_lane(&mut sections, told, docket)?;
    }
    Ok(sections)
}

/// What is rebuilt of what a report tells and what was judged, where no line is wrong behind the
/// records; else the first line that is.
pub(crate) fn rebuilt_of(
    report: Vec<u8>,
    told: Told,
    answers: Vec<LineAnswer>,
    judging: Judging,
) -> Result<Rebuilt, AuditFault>
    requires kept { IsKeptOf (lines_told report.items) told }
    ensures made { IfOk result (IsMadeOf told report.items answers.items (judging_value judging)) }
    ensures wrong { IfErr result (NamesLine (first_behind told (lines_told report.items)
        (entries_of_each judging.dockets.items))) }
{
    if let Some(line) = first_behind(&report, &told, &judging.dockets) {
        return Err(AuditFault::Wrong { line });
    }
    let Judging {
        dockets,
        tallies,
        lane: _,
    } = judging;
    let Sections { dockets, trackers } = sections_told(told.alloc(), &told, dockets)?;
    let (editions, book) = told.into_parts();
    Ok(Rebuilt {
        report,
        editions,
        answers,
        book,
        dockets,
        tallies,
        trackers,
    })
}

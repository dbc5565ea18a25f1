ghost use Rattle.std.specs.Prelude.{◌≡◌, ◌==◌, ◌≤◌, Option, Some, None, length, map, slice_get};
ghost use Rattle.std.specs.List.{list_all};
ghost use Rattle.std.specs.Option.{option_map};
ghost use Rattle.fw_world.specs.Sections.{judged_editions};
ghost use Rattle.report_reading.specs.Readings.{line_value};
ghost use Rattle.run_audit.specs.JudgingValues.{entries_of_each};
ghost use Rattle.run_audit.specs.LeftOver as spec;
ghost use Rattle.run_audit.specs.NothingLeft as kept;
ghost use Rattle.run_audit.specs.NothingLeft.{IsKeptOf};
ghost use Rattle.run_audit.specs.OtherLines as lines;
ghost use Rattle.run_audit.specs.ToldReport.{lines_told, told_by};

use crate::told::Told;
use crate::told_report::{ToldLane, ToldRecord};
use eval_engine::{Docket, DocketEntry};
use report_reading::{LaneLine, Reading, next_line, read_line};
use state_journal::Entry;

/// The entry of a record of a capture, where these dockets have one.
fn entry_at(dockets: &[Docket], lane: u64, at: u64) -> Option<DocketEntry>
    ensures { result ≡ lines.entry_at (entries_of_each dockets.now) lane at }
{
    match dockets.get(lane.saturating_sub(1) as usize) {
        Some(docket) => docket.entries().get(at.saturating_sub(1) as usize).copied(),
        None => None,
    }
}

/// Whether a record of a capture was judged.
fn is_judged(dockets: &[Docket], lane: u64, at: u64) -> bool
    ensures { result ≡ spec.is_judged (entries_of_each dockets.now) lane at }
{
    match entry_at(dockets, lane, at) {
        Some(entry) => entry.judgement().is_some(),
        None => false,
    }
}

/// Whether the editions of the judged entries don't fall.
fn is_rising(entries: &[DocketEntry]) -> bool
    ensures { result ≡ spec.rises_from 0 (judged_editions entries.now) }
{
    let mut least = 0;
    for entry in entries {
        if let Some(judgement) = entry.judgement() {
            if judgement.edition < least {
                return false;
            }
            least = judgement.edition;
        }
    }
    true
}

/// How many entries are judged.
fn judged_count(entries: &[DocketEntry]) -> u64
    ensures value { result ≡ length (judged_editions entries.now) }
    ensures within { result ≤ length entries.now }
{
    let mut count: u64 = 0;
    for entry in entries {
        if entry.judgement().is_some() {
            count += 1;
        }
    }
    count
}

/// Whether a lane's docket of these entries has the sections that its line tells, where there are
/// so many editions.
fn has_sections(editions: u64, entries: &[DocketEntry], told: &LaneLine) -> bool
    ensures { result ≡ spec.has_sections editions entries.now told.now }
{
    if !is_rising(entries) {
        return false;
    }
    if told.refused > editions.saturating_sub(1) {
        return false;
    }
    let sections = judged_count(entries).wrapping_add(told.refused);
    told.tracker == sections.wrapping_mul(2)
}

/// Whether a lane's line tells other sections than its docket has.
fn differs(editions: u64, docket: Option<&Docket>, told: &LaneLine) -> bool
    ensures { result ≡ spec.differs editions (option_map
        (λ docket. docket.now.entries) docket.entry) told.now }
{
    match docket {
        Some(docket) => !has_sections(editions, docket.entries(), told),
        None => false,
    }
}

/// Whether both are one line of a lane.
fn is_this(one: &ToldLane, number: u64, line: &LaneLine) -> bool
    ensures { result ≡ spec.is_first (Some one.now) number line.now }
{
    one.line == number
        && one.told.lane == line.lane
        && one.told.refused == line.refused
        && one.told.tracker == line.tracker
}

/// Whether the line of this number is the first of its lane, and tells other sections than its
/// docket has.
fn is_wrong_lane(told: &Told, dockets: &[Docket], number: u64, line: &LaneLine) -> bool
    ensures { result ≡ spec.is_wrong_lane told.now (entries_of_each dockets.now) number
        line.now }
{
    match told.lanes.naming(line.lane) {
        Some(one) => {
            is_this(&one, number, line)
                && differs(
                    told.editions.len() as u64,
                    dockets.get(line.lane.saturating_sub(1) as usize),
                    line,
                )
        }
        None => false,
    }
}

/// Whether each of these lines names a record that its capture gives.
fn are_given(records: &[ToldRecord], dockets: &[Docket]) -> bool
    ensures { result ≡ list_all (kept.is_given (entries_of_each dockets.now)) records.now }
{
    for one in records {
        if entry_at(dockets, one.told.capture, one.told.at).is_none() {
            return false;
        }
    }
    true
}

/// Whether an entry of the journal is of a record that was judged, where it is an ask.
fn is_of_judged(dockets: &[Docket], entry: &Entry) -> bool
    ensures { result ≡ kept.is_of_judged (entries_of_each dockets.now) entry.now }
{
    match entry {
        Entry::Publish(_) => true,
        Entry::Ask { lane, at, .. } => is_judged(dockets, u64::from(*lane), *at),
    }
}

/// Whether each ask of the journal is of a record that was judged.
fn are_of_judged(entries: &[Entry], dockets: &[Docket]) -> bool
    ensures { result ≡ list_all (kept.is_of_judged (entries_of_each dockets.now)) entries.now }
{
    for entry in entries {
        if !is_of_judged(dockets, entry) {
            return false;
        }
    }
    true
}

/// Whether none of these lines of lanes is wrong.
fn are_right_lanes(told: &Told, lanes: &[ToldLane], dockets: &[Docket]) -> bool
    ensures { result ≡ list_all (kept.is_right_lane told.now (entries_of_each dockets.now)) lanes.now }
{
    for one in lanes {
        if is_wrong_lane(told, dockets, one.line, &one.told) {
            return false;
        }
    }
    true
}

/// Whether what the line of this number tells is left over behind the records.
fn is_left_over(told: &Told, dockets: &[Docket], number: u64, reading: &Reading<'_>) -> bool
    ensures { result ≡ spec.is_left_over told.now (entries_of_each dockets.now) number
        (line_value reading.now) }
{
    match reading {
        Reading::Record(one) => entry_at(dockets, one.capture, one.at).is_none(),
        Reading::Ask(one) => !is_judged(dockets, one.lane, one.at),
        Reading::Lane(one) => is_wrong_lane(told, dockets, number, one),
        Reading::Published(_) | Reading::Other => false,
    }
}

/// Whether the line of this number is left over behind the records.
fn is_line_left_over(told: &Told, dockets: &[Docket], number: u64, line: &[u8]) -> bool
    ensures { result ≡ spec.is_left_over told.now (entries_of_each dockets.now) number
        (told_by line.now) }
{
    match read_line(line) {
        Some(reading) => is_left_over(told, dockets, number, &reading),
        None => false,
    }
}

/// Whether nothing is left of what was kept of the lines.
fn is_nothing_left(told: &Told, dockets: &[Docket]) -> bool
    ensures { result ≡ kept.is_nothing_left told.now (entries_of_each dockets.now) }
{
    are_given(told.records.all(), dockets)
        && are_of_judged(told.asks.entries(), dockets)
        && are_right_lanes(told, told.lanes.all(), dockets)
}

/// The first line of the report that is left over behind the records: the lines are read again.
fn find_left_over(report: &[u8], told: &Told, dockets: &[Docket]) -> Option<u64>
    ensures { result ≡ spec.first_left_over told.now (entries_of_each dockets.now) 1
        (lines_told report.now) }
{
    let mut rest = report;
    let mut number: u64 = 1;
    loop {
        match next_line(rest) {
            None => return None,
            Some((line, behind)) => {
                if is_line_left_over(told, dockets, number, line) {
                    return Some(number);
                }
                rest = behind;
                number += 1;
            }
        }
    }
}

/// The first line of the report that is left over behind the records. No line is read again where
/// nothing is left of what was kept of them.
fn first_left_over(report: &[u8], told: &Told, dockets: &[Docket]) -> Option<u64>
    requires kept { IsKeptOf (lines_told report.now) told.now }
    ensures { result ≡ spec.first_left_over told.now (entries_of_each dockets.now) 1
        (lines_told report.now) }
{
    if is_nothing_left(told, dockets) {
        None
    } else {
        find_left_over(report, told, dockets)
    }
}

/// Whether each lane has a line.
fn has_each_lane(told: &Told, dockets: &[Docket]) -> bool
    ensures { result ≡ spec.has_each_lane told.now 1 (entries_of_each dockets.now) }
{
    let mut lane: u64 = 1;
    for docket in dockets {
        let _ = docket;
        if told.lanes.naming(lane).is_none() {
            return false;
        }
        lane += 1;
    }
    true
}

/// The first line that is wrong behind the records, where all of them are as the report tells them.
pub(crate) fn first_behind(report: &[u8], told: &Told, dockets: &[Docket]) -> Option<u64>
    requires kept { IsKeptOf (lines_told report.now) told.now }
    ensures { result ≡ spec.first_behind told.now (lines_told report.now)
        (entries_of_each dockets.now) }
{
    if let Some(line) = first_left_over(report, told, dockets) {
        Some(line)
    } else if has_each_lane(told, dockets) {
        None
    } else {
        Some(told.behind())
    }
}

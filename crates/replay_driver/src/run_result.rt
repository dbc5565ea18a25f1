ghost use Rattle.std.specs.Prelude.{◌≡◌, ◌<◌, [], length};
ghost use Rattle.std.specs.List.{list_any};
ghost use Rattle.fw_base.specs.Texts.{WritesText};
ghost use Rattle.capture_tracks.specs.Reported.{report_record};
ghost use Rattle.report_texts.specs.CaptureEnds as end_spec;
ghost use Rattle.report_texts.specs.Report.{report_text};
ghost use Rattle.replay_driver.specs.RunResult as spec;

use capture_tracks::is_unread;
use fw_base::{Failed, Name, Sink, write_text};
use fw_report::{write_report, write_summary};
use fw_world::Record;
use replay_setup::{ScriptError, no_ends, write_unread};
use report_texts::{Answer, CaptureEnd, Ends, LineAnswer, Recorded};
use std::alloc::Global;

/// What a run comes to, before a byte is written.
#[derive(Drop)]
pub(crate) enum RunResult {
    /// The words are no command.
    Usage,
    /// A name that couldn't be opened or, for the script, read.
    Unread(Name),
    /// A script that gives no edition.
    Unready(ScriptError),
    /// Captures were replayed; whether the report has the journal.
    Reported {
        kept: Record,
        ends: Ends,
        journal: bool,
    },
    /// A load was replayed.
    Summed {
        kept: Record,
        ends: Ends,
    },
}

/// Whether the capture ended with a fault.
fn is_stopped(end: &CaptureEnd) -> bool
    ensures { result ≡ spec.is_stopped end.now }
{
    match end {
        CaptureEnd::Read { .. } => false,
        CaptureEnd::Stopped { .. } => true,
    }
}

/// Whether the command on the line was refused.
fn is_refused(line: &LineAnswer) -> bool
    ensures { result ≡ spec.is_refused line.now }
{
    match &line.answer {
        Answer::Refused(_) => true,
        Answer::Listed { .. } => false,
    }
}

fn some_unread(ends: &[CaptureEnd]) -> bool
    ensures { result ≡ list_any end_spec.is_unread ends.now }
{
    ends.iter().any(|end| is_unread(end))
}

fn some_stopped(ends: &[CaptureEnd]) -> bool
    ensures { result ≡ list_any spec.is_stopped ends.now }
{
    ends.iter().any(is_stopped)
}

fn some_refused(lines: &[LineAnswer]) -> bool
    ensures { result ≡ list_any spec.is_refused lines.now }
{
    lines.iter().any(is_refused)
}

/// The status of a replay that ended so.
#[tactic(auto, unfolding(crate::specs::RunResult::report_status))]
fn report_status(ends: &Ends) -> u8
    ensures { result ≡ spec.report_status ends.now.captures ends.now.answers }
{
    let captures = ends.captures.as_slice();
    if some_unread(captures) {
        4
    } else if some_stopped(captures) {
        3
    } else if some_refused(ends.answers.as_slice()) {
        2
    } else {
        0
    }
}

impl RunResult {
    ghost use Rattle.replay_driver.specs.RunResult as spec;

    /// The status, where the text is written.
    pub(crate) fn status(&self) -> u8
        ensures { result ≡ spec.result_status self.now }
    {
        match self {
            RunResult::Usage => 1,
            RunResult::Unread(_) => 4,
            RunResult::Unready(_) => 2,
            RunResult::Reported { ends, .. } | RunResult::Summed { ends, .. } => {
                report_status(ends)
            }
        }
    }

    /// Writes what was found.
    #[tactic(auto, unfolding(crate::specs::RunResult::result_text))]
    pub(crate) fn write<K: Sink>(&self, out: &mut K) -> Result<(), Failed>
        requires { spec.IsWritable self.now }
        ensures { WritesText (K.state out.old) (K.state out.new)
            (spec.result_text self.now) result }
    {
        match self {
            RunResult::Usage => write_usage(out),
            RunResult::Unread(name) => write_unread(out, name.bytes()),
            RunResult::Unready(error) => error.write(out),
            RunResult::Reported {
                kept,
                ends,
                journal,
            } => report(out, kept, ends, *journal),
            RunResult::Summed { kept, .. } => sum_up(out, kept),
        }
    }

    /// What is kept of it, and how its captures ended.
    pub(crate) fn into_parts(self, alloc: Global) -> (Option<Record>, Ends)
        ensures kept { result.0 ≡ spec.result_kept self }
        ensures captures { result.1.captures ≡ spec.result_ends self }
        ensures answers { result.1.answers ≡ spec.result_answers self }
    {
        match self {
            RunResult::Usage | RunResult::Unread(_) | RunResult::Unready(_) => {
                (None, no_ends(alloc))
            }
            RunResult::Reported { kept, ends, .. } | RunResult::Summed { kept, ends } => {
                (Some(kept), ends)
            }
        }
    }
}

/// A record as what is reported.
fn recorded_of(kept: &Record) -> Recorded<'_>
    ensures { result ≡ report_record kept.now }
{
    Recorded {
        editions: kept.editions(),
        book: kept.book(),
        dockets: kept.dockets(),
        tallies: kept.tallies(),
        trackers: kept.trackers(),
        hits: kept.hits(),
    }
}

/// Writes the report of a record.
fn report<K: Sink>(out: &mut K, kept: &Record, ends: &Ends, journal: bool) -> Result<(), Failed>
    requires { 0 < length kept.now.editions }
    ensures { WritesText (K.state out.old) (K.state out.new)
        (report_text (report_record kept.now) ends.now.captures
        ends.now.answers journal) result }
{
    write_report(&recorded_of(kept), ends, journal, out).map_err(|_| Failed)
}

/// Writes the summary of a record.
fn sum_up<K: Sink>(out: &mut K, kept: &Record) -> Result<(), Failed>
    ensures { WritesText (K.state out.old) (K.state out.new) (spec.summary_of kept.now) result }
{
    write_summary(&recorded_of(kept), out).map_err(|_| Failed)
}

/// Writes the usage line.
#[tactic(auto, unfolding(crate::specs::RunResult::usage_text))]
fn write_usage<K: Sink>(out: &mut K) -> Result<(), Failed>
    ensures { WritesText (K.state out.old) (K.state out.new) spec.usage_text result }
{
    write_text(
        out,
        b"usage: ipfw_replay serial|live [--journal] SCRIPT in|out:IF:CAPTURE .. | load N\n",
    )
}

/// What a run finds before a byte is written, and the sources that it hands back.
#[derive(Drop)]
pub(crate) struct Found<S> {
    pub(crate) result: RunResult,
    pub(crate) sources: Vec<S>,
}

/// What a run finds that hands back no source.
pub(crate) fn without_sources<S>(alloc: Global, found: RunResult) -> Found<S>
    ensures result { result.result ≡ found }
    ensures sources { result.sources.items ≡ [] }
{
    Found {
        result: found,
        sources: Vec::new(alloc),
    }
}

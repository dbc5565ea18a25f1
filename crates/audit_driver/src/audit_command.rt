ghost use Rattle.std.specs.Prelude.{◌≡◌, ◌≢◌, ◌⊎◌, ◌≤◌, ◌∷◌, [], List, None, Some, IfOk, length};
ghost use Rattle.std.specs.Prelude.{map, take};
ghost use Rattle.std.specs.List.{AllByRecursion};
ghost use Rattle.command_words.specs.Invocation.{capture_names};
ghost use Rattle.fw_base.specs.Faults.{Rose};
ghost use Rattle.fw_base.specs.Pairs.{Pair};
ghost use Rattle.fw_command.specs.WellFormed.{IsStepInRange};
ghost use Rattle.replay_setup.specs.Openings.{pairs_without};
ghost use Rattle.capture_tracks.specs.Replay.{sources_of};
ghost use Rattle.audit_driver.specs.AuditNames.{words_named};
ghost use Rattle.audit_driver.specs.Concluding.{ComparesWith, Concludes, IsStoppedSo};
ghost use Rattle.audit_driver.specs.Found.{ConcludesAudit, FindsAudit, FindsBehindReport};
ghost use Rattle.audit_driver.specs.Printed.{IsPrintedAudit};
ghost use Rattle.audit_driver.specs.Promises.{IsQuietAudit, SaysNo, SaysUnread, SaysUnready};
ghost use Rattle.audit_driver.specs.Promises.{SaysYes};
ghost use Rattle.audit_driver.specs.Promises.{names_in_order};
ghost use Rattle.audit_driver.specs.Run.{IsAuditRun, IsFoundAudit};

use crate::audit_result::AuditResult;
use crate::concluding::{conclude, stop};
use capture_audits::{Examined, examine};
use capture_tracks::OpenedCapture;
use command_words::{CaptureWord, Mode};
use fw_base::{Library, MOST_CAPTURES, Name, OutOfMemory, Sink, Source};
use replay_setup::{
    FirstEdition, LibraryView, NamedSource, Outcome, Readiness, Ready, SinkView, make_ready,
    no_ends, read_named, status_written,
};
use run_audit::{Audit, AuditFault};
use std::alloc::Global;

/// How many bytes a report has at most that is audited.
const MOST_BYTES: usize = 1_073_741_824;

/// What an audit names: a report, and the script and the captures that it is to be of. No name is
/// empty.
#[derive(Clone, Copy, Drop)]
pub struct AuditWords<'a> {
    pub report: &'a [u8],
    pub script: &'a [u8],
    /// 1 to 16 captures.
    pub captures: &'a [CaptureWord<'a>],
}

/// What an audit found before a byte is written, and the sources that it hands back.
#[derive(Drop)]
pub(crate) struct Found<S> {
    pub(crate) result: AuditResult,
    pub(crate) sources: Vec<S>,
}

/// A report that was read.
#[derive(Drop)]
struct ReadReport<S> {
    source: S,
    bytes: Vec<u8>,
}

/// The sources of captures of which nothing was read.
fn into_sources<S: Drop>(
    alloc: Global,
    opened: Vec<OpenedCapture<S>>,
) -> Result<Vec<S>, OutOfMemory>
    ensures { IfOk result (λ sources. sources.items ≡ sources_of opened.items) }
{
    let mut sources = Vec::with_capacity(alloc, opened.len())?;
    for capture in opened {
        sources.push(capture.source)?;
    }
    Ok(sources)
}

/// Audits a report beside what a script gives and captures that were opened.
fn audit_captures<S: Source>(
    alloc: Global,
    report: Vec<u8>,
    first: FirstEdition,
    names: &[CaptureWord<'_>],
    opened: Vec<OpenedCapture<S>>,
) -> Result<Found<S>, OutOfMemory>
    requires some { 1 ≤ length opened.items }
    requires few { length opened.items ≤ MOST_CAPTURES }
    requires named { length names.now ≡ length opened.items }
    requires steps { AllByRecursion IsStepInRange first.live }
    ensures { IfOk result (λ found. ConcludesAudit S.left S.faults first report.items
        (map capture_names names.now) opened.items found.result found.sources.items) }
{
    if report.len() > MOST_BYTES {
        return Ok(Found {
            result: AuditResult::TooLong,
            sources: into_sources(alloc, opened)?,
        });
    }
    let FirstEdition {
        config,
        answers,
        live,
    } = first;
    match Audit::open(alloc, report, config, live.as_slice(), opened.len() as u32) {
        Err(AuditFault::OutOfMemory) => Err(OutOfMemory),
        Err(AuditFault::Wrong { line }) => Ok(Found {
            result: AuditResult::No(line),
            sources: into_sources(alloc, opened)?,
        }),
        Ok(audit) => {
            let Examined {
                audit,
                sources,
                ends,
                stopped,
            } = examine(alloc, audit, opened)?;
            let result = if stopped {
                stop(alloc, audit, ends.len(), names)?
            } else {
                conclude(alloc, answers, audit, ends)?
            };
            Ok(Found { result, sources })
        }
    }
}

/// A source before others.
fn before<S: Drop>(source: S, others: Vec<S>) -> Result<Vec<S>, OutOfMemory>
    ensures { IfOk result (λ sources. sources.items ≡ source ∷ others.items) }
{
    let mut sources = others;
    sources.insert(0, source)?;
    Ok(sources)
}

/// Opens what the words name behind a report that was read, and audits it.
fn audit_behind<L: Library>(
    alloc: Global,
    report: ReadReport<L::Reader>,
    words: AuditWords<'_>,
    library: &mut L,
) -> Result<Found<L::Reader>, OutOfMemory>
    requires some { 1 ≤ length words.captures.now }
    requires few { length words.captures.now ≤ MOST_CAPTURES }
    ensures { IfOk result (λ found. FindsBehindReport ⟦<L as LibraryView>⟧.files
        (words_named words.entry) library.old library.new report.source report.bytes.items
        found.result found.sources.items) }
{
    let ReadReport { source, bytes } = report;
    match make_ready(alloc, Mode::Serial, words.script, words.captures, library)? {
        Readiness::Unread(name, sources) => Ok(Found {
            result: AuditResult::Unread(name),
            sources: before(source, sources)?,
        }),
        Readiness::NoEdition(error, sources) => Ok(Found {
            result: AuditResult::Unready(error),
            sources: before(source, sources)?,
        }),
        Readiness::Ready(
            Ready {
                script,
                first,
                captures,
            },
        ) => {
            let Found { result, sources } = audit_captures(
                alloc,
                bytes,
                first,
                words.captures,
                captures,
            )?;
            Ok(Found {
                result,
                sources: before(source, before(script, sources)?)?,
            })
        }
    }
}

/// Opens and reads what the words name, in the order of the words, and audits it.
fn find<L: Library>(
    alloc: Global,
    words: AuditWords<'_>,
    library: &mut L,
) -> Result<Found<L::Reader>, OutOfMemory>
    requires some { 1 ≤ length words.captures.now }
    requires few { length words.captures.now ≤ MOST_CAPTURES }
    ensures { IfOk result (λ found. FindsAudit ⟦<L as LibraryView>⟧.files
        (words_named words.entry) library.old library.new found.result found.sources.items) }
{
    let name = Name::new(alloc, words.report)?;
    match read_named(alloc, &name, MOST_BYTES + 1, library)? {
        NamedSource::Refused => Ok(Found {
            result: AuditResult::Unread(name),
            sources: Vec::new(alloc),
        }),
        NamedSource::Broken(source) => Ok(Found {
            result: AuditResult::Unread(name),
            sources: before(source, Vec::new(alloc))?,
        }),
        NamedSource::Read(source, bytes) => {
            audit_behind(alloc, ReadReport { source, bytes }, words, library)
        }
    }
}

/// Writes what was found.
fn report<S: Drop, K: Sink>(alloc: Global, found: Found<S>, out: &mut K) -> Outcome<S>
    ensures { IsFoundAudit ⟦<K as SinkView>⟧.output found out.old out.new result }
{
    let Found { result, sources } = found;
    let written = result.write(out);
    Outcome {
        status: status_written(result.status(), written),
        ends: no_ends(alloc),
        kept: None,
        sources,
    }
}

/// Audits what the words name, and writes what was found.
fn audit_words<L: Library, K: Sink>(
    alloc: Global,
    words: AuditWords<'_>,
    library: &mut L,
    out: &mut K,
) -> Outcome<L::Reader>
    requires some { 1 ≤ length words.captures.now }
    requires few { length words.captures.now ≤ MOST_CAPTURES }
    ensures { IsAuditRun ⟦<K as SinkView>⟧.output ⟦<L as LibraryView>⟧.files
        (words_named words.entry) library.old library.new out.old out.new result }
{
    match find(alloc, words, library) {
        Err(OutOfMemory) => Outcome::out_of_memory(alloc),
        Ok(found) => report(alloc, found, out),
    }
}

/// Says whether a report is that of a legal record of this script and these captures, in one line.
///
/// The status is 0 where it is, and 7 where it isn't; 2 where the script gives no edition; 4 where
/// a name could not be opened or read; 5 where the sink failed; 6 where memory ran out.
pub fn audit<L: Library, K: Sink>(
    alloc: Global,
    words: AuditWords<'_>,
    library: &mut L,
    out: &mut K,
) -> Outcome<L::Reader>
    requires some { 1 ≤ length words.captures.now }
    requires few { length words.captures.now ≤ MOST_CAPTURES }

    // Which words, reports, scripts and captures come to what: exactly.
    ensures exact { IsAuditRun ⟦<K as SinkView>⟧.output ⟦<L as LibraryView>⟧.files
        (words_named words.entry) library.old library.new out.old out.new result }

    // The headline: yes only for the report of a legal record; no with the first line that is
    // wrong.
    ensures yes { result.status ≡ 0 → SaysYes ⟦<K as SinkView>⟧.output ⟦<L as LibraryView>⟧.files
        (words_named words.entry) library.old library.new out.old out.new result }
    ensures no { result.status ≡ 7 → SaysNo ⟦<K as SinkView>⟧.output ⟦<L as LibraryView>⟧.files
        (words_named words.entry) library.old library.new out.old out.new result }

    // Each other status only where its cause is.
    ensures unready { result.status ≡ 2 → SaysUnready ⟦<K as SinkView>⟧.output
        ⟦<L as LibraryView>⟧.files (words_named words.entry) library.old library.new out.old out.new
        result }
    ensures unread { result.status ≡ 4 → SaysUnread ⟦<K as SinkView>⟧.output
        ⟦<L as LibraryView>⟧.files (words_named words.entry) library.old library.new out.old out.new
        result }
    ensures never_1 { result.status ≢ 1 }
    ensures never_3 { result.status ≢ 3 }
    ensures status_5_cause { result.status ≡ 5
        → Rose (K.state out.old).faults (K.state out.new).faults }
    ensures status_6_silent { result.status ≡ 6 → out.new ≡ out.old }
    ensures nothing_kept { result.kept ≡ None }

    // The names are opened in their order, once each, and no other is.
    ensures openings { (pairs : List Pair) → L.pairs library.old ≡ Some pairs → result.status ≢ 6
        → L.pairs library.new
        ≡ pairs_without (take (length result.sources.items)
        (names_in_order (words_named words.entry))) pairs }

    // Where nothing failed and the script gives an edition, it is yes or no, or memory ran out.
    ensures complete { IsQuietAudit ⟦<K as SinkView>⟧.output ⟦<L as LibraryView>⟧.files
        (words_named words.entry) library.old library.new out.old out.new result
        → (result.status ≡ 0) ⊎ ((result.status ≡ 7) ⊎ (result.status ≡ 6)) }

    // Where the report is what a replay prints of the script and the captures, with its journal and
    // without a cache, it is yes, or memory ran out.
    ensures accepts { IsPrintedAudit ⟦<K as SinkView>⟧.output ⟦<L as LibraryView>⟧.files
        (words_named words.entry) library.old library.new out.old out.new result
        → (result.status ≡ 0) ⊎ (result.status ≡ 6) }
{
    audit_words(alloc, words, library, out)
}

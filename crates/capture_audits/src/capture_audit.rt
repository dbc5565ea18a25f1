ghost use Rattle.std.specs.Prelude.{◌≡◌, ◌≤◌, ℕ, None, IfOk, List, length};
ghost use Rattle.fw_command.specs.declared.script.Step.{Step};
ghost use Rattle.rule_chain.specs.Configuration.{Configuration};
ghost use Rattle.run_audit.specs.Audit.{Meets};
ghost use Rattle.run_audit.specs.AuditAnswers.{answer_of};
ghost use Rattle.capture_audits.specs.CaptureAudit.{HasTrack, MeetsAll, AuditsCapture};
ghost use Rattle.capture_tracks.specs.Taken.{taken_input};

use capture_tracks::{OpenedCapture, Taken, Track, held};
use fw_base::{OutOfMemory, Source};
use fw_world::Skipped;
use ip6_headers::{AnyPacket, read_any};
use pcap_read::{MOST_RECORD_BYTES, MOST_RECORDS};
use report_texts::CaptureEnd;
use run_audit::{Audit, AuditFault};
use std::alloc::Global;

/// A capture of which records were met by an audit.
#[derive(Drop)]
struct Work<S> {
    track: Track<S>,
    audit: Audit,
}

/// What is left of a capture that was audited: the audit, its source, and how it ended.
#[derive(Drop)]
pub(crate) struct CaptureAudit<S> {
    pub(crate) audit: Audit,
    pub(crate) source: S,
    /// How the capture ended; of a capture with a record that isn't as the report tells it, nothing
    /// is said.
    pub(crate) end: CaptureEnd,
}

/// The audit meets the next record of this lane.
fn meet(audit: &mut Audit, lane: u32, taken: Taken<'_>) -> Result<(), AuditFault>
    requires first { 1 ≤ lane }
    requires last { lane ≤ length audit.old.dockets }
    requires ordered { audit.old.lane ≤ lane }
    requires small { length taken.record.bytes.now ≤ MOST_RECORD_BYTES }
    ensures met { (config : Configuration) (steps : List Step) (report : List ℕ)
        → Meets config steps report lane (taken_input taken.entry) audit.old audit.new }
    ensures answer { result ≡ answer_of audit.new.fault }
    ensures captures { length audit.new.dockets ≡ length audit.old.dockets }
    ensures lane { audit.new.lane ≡ lane }
{
    let Taken {
        link,
        port,
        record,
        ..
    } = taken;
    match read_any(link, record.bytes) {
        AnyPacket::Ip(packet) => audit.judge(lane, &packet, port, record.second),
        AnyPacket::Other => audit.skip(lane, Skipped::Other),
        AnyPacket::Malformed(kind) => audit.skip(lane, Skipped::Malformed(kind)),
    }
}

/// The audit meets the records that are still to come of a capture, to the first that isn't as the
/// report tells it.
fn meet_all<S: Source>(lane: u32, work: Work<S>) -> Work<S>
    requires first { 1 ≤ lane }
    requires last { lane ≤ length work.audit.dockets }
    requires ordered { work.audit.lane ≤ lane }
    requires clear { work.audit.fault ≡ None }
    requires track { HasTrack S.left S.faults work.track }
    ensures met { MeetsAll S.left S.faults lane work result }
    ensures captures { length result.audit.dockets ≡ length work.audit.dockets }
    ensures lane { result.audit.lane ≤ lane }
{
    let Work {
        mut track,
        mut audit,
    } = work;
    while let Some(taken) = held(&track) {
        if meet(&mut audit, lane, taken).is_err() {
            return Work { track, audit };
        }
        track.advance();
    }
    Work { track, audit }
}

/// Reads a capture, of which at most `limit` records are read, to its end or its fault. The audit
/// meets each record, to the first that isn't as the report tells it.
pub(crate) fn audit_capture<S: Source>(
    alloc: Global,
    audit: Audit,
    lane: u32,
    opened: OpenedCapture<S>,
    limit: u32,
) -> Result<CaptureAudit<S>, OutOfMemory>
    requires first { 1 ≤ lane }
    requires last { lane ≤ length audit.dockets }
    requires ordered { audit.lane ≤ lane }
    requires clear { audit.fault ≡ None }
    requires some { 1 ≤ limit }
    requires most { limit ≤ MOST_RECORDS }
    ensures audited { IfOk result (AuditsCapture S.left S.faults lane limit opened audit) }
    ensures captures { IfOk result (λ one. length one.audit.dockets ≡ length audit.dockets) }
    ensures lane { IfOk result (λ one. one.audit.lane ≤ lane) }
{
    let track = Track::open(alloc, opened, limit)?;
    let Work { track, audit } = meet_all(lane, Work { track, audit });
    let (source, end) = track.close();
    Ok(CaptureAudit { audit, source, end })
}

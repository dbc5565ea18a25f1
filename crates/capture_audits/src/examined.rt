ghost use Rattle.std.specs.Prelude.{◌≡◌, ◌≤◌, ◌||◌, None, IfOk, is_some, length};
ghost use Rattle.capture_audits.specs.Examined.{HasRoom, ExaminesNext, ExaminesAll};
ghost use Rattle.report_texts.specs.CaptureEnds as ends_spec;

use crate::capture_audit::{CaptureAudit, audit_capture};
use capture_tracks::{OpenedCapture, is_unread, limit_for};
use fw_base::{MOST_CAPTURES, OutOfMemory, Source};
use pcap_read::MOST_RECORDS;
use report_texts::CaptureEnd;
use run_audit::Audit;
use std::alloc::Global;

/// Captures that were audited in their order, to the first that stopped the audit.
#[derive(Drop)]
pub struct Examined<S> {
    pub audit: Audit,
    /// The captures' sources; those behind one that stopped the audit weren't read.
    pub sources: Vec<S>,
    /// How the captures ended that were read; of one that has a record that isn't as the report
    /// tells it nothing is said.
    pub ends: Vec<CaptureEnd>,
    /// Whether the audit was stopped: by a record, for want of memory, or by a source that failed.
    pub stopped: bool,
}

/// Whether the audit ends behind a capture that ended so.
fn is_stopped(audit: &Audit, end: &CaptureEnd) -> bool
    ensures { result ≡ (is_some audit.now.fault || ends_spec.is_unread end.now) }
{
    audit.fault().is_some() || is_unread(end)
}

/// Audits the next capture, of which at most `limit` records are read, or passes it by.
fn examine_next<S: Source>(
    alloc: Global,
    examined: Examined<S>,
    opened: OpenedCapture<S>,
    limit: u32,
) -> Result<Examined<S>, OutOfMemory>
    requires room { HasRoom 1 examined }
    requires some { 1 ≤ limit }
    requires most { limit ≤ MOST_RECORDS }
    ensures next { IfOk result (ExaminesNext S.left S.faults limit opened examined) }
{
    let Examined {
        audit,
        mut sources,
        mut ends,
        stopped,
    } = examined;
    if stopped {
        sources.push(opened.source)?;
        return Ok(Examined {
            audit,
            sources,
            ends,
            stopped,
        });
    }
    let lane = ends.len() as u32 + 1;
    let CaptureAudit { audit, source, end } = audit_capture(alloc, audit, lane, opened, limit)?;
    let stopped = is_stopped(&audit, &end);
    sources.push(source)?;
    ends.push(end)?;
    Ok(Examined {
        audit,
        sources,
        ends,
        stopped,
    })
}

/// Audits 1 to 16 captures in their order, to the first that stops the audit, which was opened for so many.
pub fn examine<S: Source>(
    alloc: Global,
    audit: Audit,
    opened: Vec<OpenedCapture<S>>,
) -> Result<Examined<S>, OutOfMemory>
    requires some { 1 ≤ length opened.items }
    requires few { length opened.items ≤ MOST_CAPTURES }
    requires captures { length audit.dockets ≡ length opened.items }
    requires clear { audit.fault ≡ None }
    requires lane { audit.lane ≡ 1 }
    ensures { IfOk result (ExaminesAll S.left S.faults opened.items audit) }
{
    let limit = limit_for(opened.len() as u32);
    let mut rest = opened;
    rest.reverse();
    let mut examined = Examined {
        audit,
        sources: Vec::new(alloc),
        ends: Vec::new(alloc),
        stopped: false,
    };
    while let Some(capture) = rest.pop() {
        examined = examine_next(alloc, examined, capture, limit)?;
    }
    Ok(examined)
}

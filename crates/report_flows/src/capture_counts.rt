ghost use Rattle.std.specs.Prelude.{◌≡◌, ℕ, ◌<◌, ◌+◌, [], Some, IfErr, IfOk, IfSome, OnOk, length};
ghost use Rattle.std.specs.HashMap.{get};
ghost use Rattle.pcap_read.specs.Capture.{IsOpened, current_of, link_of};
ghost use Rattle.report_moves.specs.Moves.{AreToldOnce};
ghost use Rattle.report_moves.specs.Spans.{pair_eq};
ghost use Rattle.report_flows.specs.Captures.{IsCauseIn, IsCountedCapture, held_flow, most_records};
ghost use Rattle.report_flows.specs.Counting as spec;

use crate::flow_counts::FlowCounts;
use crate::move_places::places_of;
use crate::{AnyFlow, FlowsFault, flow_in};
use fw_base::{OutOfMemory, Source};
use pcap_read::{Capture, CaptureFault, MOST_RECORDS};
use report_moves::Move;
use std::alloc::Global;
use std::collections::HashMap;

/// What the records of a capture came to in two reports.
#[derive(Clone, Copy)]
pub(crate) struct Outcomes<'a> {
    /// The capture's number, from 1.
    pub(crate) capture: u64,
    pub(crate) old: &'a [u32],
    pub(crate) new: &'a [u32],
}

/// Opens the capture of this number.
fn open_capture<S: Source>(alloc: Global, number: u64, source: S) -> Result<Capture<S>, FlowsFault>
    ensures opened { IfOk result (IsOpened S.left S.faults most_records source) }
    ensures cause { (told : ℕ)
        → IfErr result (IsCauseIn S.left S.faults number told source) }
{
    match Capture::open(alloc, source, MOST_RECORDS) {
        Ok(capture) => Ok(capture),
        Err(refused) => match refused.fault {
            CaptureFault::OutOfMemory => Err(FlowsFault::OutOfMemory),
            fault => Err(FlowsFault::Capture {
                capture: number,
                record: 0,
                fault,
            }),
        },
    }
}

/// The flow of the record that the capture gave last.
fn flow_held<S: Source>(capture: &Capture<S>) -> Option<AnyFlow>
    ensures { result ≡ held_flow (link_of capture.now) (current_of capture.now) }
{
    match capture.current() {
        Some(record) => flow_in(capture.link(), record.bytes),
        None => None,
    }
}

/// Counts a record under its flow, for the move that it belongs to.
fn count_record(
    counts: &mut [FlowCounts],
    place: Option<usize>,
    flow: Option<AnyFlow>,
    number: u64,
) -> Result<(), OutOfMemory>
    requires within { IfSome place (λ place. place < length counts.old) }
    requires few { IfSome place (λ place.
        spec.IsBelow flow number (spec.entries_at counts.old place)) }
    ensures { OnOk result (spec.CountsAt counts.old counts.new place flow number) }
{
    match place {
        Some(place) => counts[place].count(flow, number),
        None => Ok(()),
    }
}

/// Where the move of a record stands, if it is one.
fn place_at(places: &HashMap<(u32, u32), usize>, pair: (u32, u32)) -> Option<usize>
    ensures { result ≡ get pair_eq places.now pair }
{
    places.get(&pair).copied()
}

/// Counts the flows of a source's records for the moves of its capture, and answers how many records it has.
pub(crate) fn count_capture<S: Source>(
    alloc: Global,
    counts: &mut [FlowCounts],
    moves: &[Move],
    told: &Outcomes<'_>,
    source: S,
) -> Result<u64, FlowsFault>
    requires once { AreToldOnce moves.now }
    requires lengths { length told.now.old.now ≡ length told.now.new.now }
    requires count { length counts.old ≡ length moves.now }
    requires none { (place : ℕ) → (spec.move_at moves.now place).capture ≡ told.now.capture
        → spec.entries_at counts.old place ≡ [] }
    ensures counted { IfOk result (λ count. IsCountedCapture S.left S.faults source moves.now
        told.now.capture told.now.old.now told.now.new.now count counts.old counts.new) }
    ensures cause { IfErr result (IsCauseIn S.left S.faults told.now.capture
        (length told.now.old.now) source) }
{
    let places = places_of(alloc, moves, told.capture)?;
    let mut capture = open_capture(alloc, told.capture, source)?;
    let mut at: usize = 0;
    loop {
        match capture.advance() {
            Ok(true) => {
                if at < told.old.len() {
                    let place = place_at(&places, (told.old[at], told.new[at]));
                    count_record(counts, place, flow_held(&capture), at as u64 + 1)?;
                }
                at += 1;
            }
            Ok(false) => return Ok(at as u64),
            Err(fault) => {
                return Err(FlowsFault::Capture {
                    capture: told.capture,
                    record: at as u64 + 1,
                    fault,
                });
            }
        }
    }
}

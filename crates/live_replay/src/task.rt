ghost use Rattle.std.specs.Prelude.{◌≤◌, IfOk};
ghost use Rattle.live_replay.specs.Work.{HasWork, IsReady, Finishes, TakesAll};

use crate::lane_steps::meet;
use capture_tracks::{OpenedCapture, Track, held};
use fw_base::{Gate, OutOfMemory, Source};
use pcap_read::MOST_RECORDS;
use report_texts::CaptureEnd;
use shared_world::{Lane, World};
use std::alloc::Global;
use std::sync::Wait;

/// What a worker has to do: a capture, of which at most `limit` records are read, and the lane that meets them.
#[derive(Drop)]
pub(crate) struct Task<S> {
    pub(crate) opened: OpenedCapture<S>,
    pub(crate) limit: u32,
    pub(crate) lane: Lane,
}

/// A capture that was replayed to its end: its lane, its source, and how it ended.
#[derive(Drop)]
pub(crate) struct Finished<S> {
    pub(crate) lane: Lane,
    pub(crate) source: S,
    pub(crate) end: CaptureEnd,
}

/// A capture that is being replayed, and its lane.
#[derive(Drop)]
struct Post<S> {
    track: Track<S>,
    lane: Lane,
}

/// The lane meets all records that are still to come of its capture.
fn take_all<S: Source, R: Wait, G: Gate>(
    rt: &R,
    world: &World,
    gate: &G,
    post: Post<S>,
) -> Result<Post<S>, OutOfMemory>
    requires { HasWork S.left S.faults world.now post }
    ensures { IfOk result (TakesAll S.left S.faults world.now post) }
{
    let Post {
        mut track,
        mut lane,
    } = post;
    while let Some(taken) = held(&track) {
        lane = meet(rt, world, gate, lane, taken)?;
        track.advance();
    }
    Ok(Post { track, lane })
}

impl<S: Source> Task<S> {
    /// Reads the capture to its end or its fault; the lane meets each of its records.
    pub(crate) fn carry_out<R: Wait, G: Gate>(
        self,
        rt: &R,
        alloc: Global,
        world: &World,
        gate: &G,
    ) -> Result<Finished<S>, OutOfMemory>
        requires { IsReady world.now self }
        ensures { IfOk result (Finishes S.left S.faults world.now self) }
    {
        let Task {
            opened,
            limit,
            lane,
        } = self;
        let track = Track::open(alloc, opened, limit)?;
        let Post { track, lane } = take_all(rt, world, gate, Post { track, lane })?;
        let (source, end) = track.close();
        Ok(Finished { lane, source, end })
    }
}

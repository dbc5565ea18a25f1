ghost use Rattle.std.specs.Prelude.{◌≡◌, ◌<◌, ◌≤◌, ◌⊎◌, Some, length, slice_get, IfOk, OnOk};
ghost use Rattle.fw_command.specs.WellFormed.{IsLine};
ghost use Rattle.fw_world.specs.Caches.{IsPortFor};
ghost use Rattle.fw_world.specs.Lane.{LaneValue};
ghost use Rattle.pcap_read.specs.Capture.{captured_of};
ghost use Rattle.rule_edits.specs.Changing.{IsChanging};
ghost use Rattle.capture_tracks.specs.Commands.{line_answer};
ghost use Rattle.capture_tracks.specs.Listings.{listing_in};
ghost use Rattle.capture_tracks.specs.Operator.{IsListed};
ghost use Rattle.serial_replay.specs.ReplayWorld.{AnswersLine, Accepts, RefusesLine, RunsALine, ReplaysARecord, IsSound};
ghost use Rattle.capture_tracks.specs.Reading.{input_of};

use capture_tracks::{Listing, answer_listing, listing_of};
use fw_base::{Link, OutOfMemory, Port};
use fw_command::Line;
use fw_world::{CommitFault, Skipped};
use ip6_headers::{AnyPacket, read_any};
use pcap_read::{MOST_RECORD_BYTES, Record};
use report_texts::{Answer, LineAnswer};
use serial_world::{SerialDesk, SerialLane, SerialWorld};
use std::alloc::Global;

/// A world with its desk and its lanes, and the answers to the lines that ran.
#[derive(Drop)]
pub(crate) struct ReplayWorld {
    pub(crate) world: SerialWorld,
    pub(crate) desk: SerialDesk,
    pub(crate) lanes: Vec<SerialLane>,
    pub(crate) answers: Vec<LineAnswer>,
}

impl ReplayWorld {
    /// Answers a line.
    fn answer(&mut self, line: u32, answer: Answer) -> Result<(), OutOfMemory>
        ensures { OnOk result (AnswersLine self.old self.new (line_answer line answer)) }
    {
        self.answers.push(LineAnswer { line, answer })?;
        Ok(())
    }

    /// The answer to a listing, by the last edition.
    fn listed(&self, listing: Listing<'_>) -> Result<Answer, OutOfMemory>
        ensures { IfOk result (IsListed self.now.desk (listing_in listing.entry)) }
    {
        let edition = self.desk.number();
        answer_listing(self.desk.config(), edition, listing)
    }

    /// Publishes what the command of a line makes, or answers that it is refused.
    fn commit(&mut self, alloc: Global, line: &Line) -> Result<(), OutOfMemory>
        requires formed { IsLine line.now }
        requires changing { IsChanging line.now.command }
        requires desk { self.old.desk ≡ self.old.world.editions }
        ensures { OnOk result (Accepts self.old self.new line.now.command
            ⊎ RefusesLine self.old self.new line.now) }
    {
        match self.world.edit(alloc, &mut self.desk, &line.command) {
            Ok(_number) => Ok(()),
            Err(CommitFault::Refused(fault)) => self.answer(line.line, Answer::Refused(fault)),
            Err(CommitFault::OutOfMemory) => Err(OutOfMemory),
        }
    }

    /// Runs a line.
    pub(crate) fn run_line(&mut self, alloc: Global, line: &Line) -> Result<(), OutOfMemory>
        requires formed { IsLine line.now }
        requires desk { self.old.desk ≡ self.old.world.editions }
        ensures { OnOk result (RunsALine self.old self.new line.now) }
    {
        match listing_of(&line.command) {
            Some(listing) => {
                let answer = self.listed(listing)?;
                self.answer(line.line, answer)
            }
            None => self.commit(alloc, line),
        }
    }

    /// Replays a record of a capture of this link type, which was taken at that port.
    pub(crate) fn replay_record(
        &mut self,
        capture: usize,
        link: Link,
        port: &Port,
        taken: Record<'_>,
    ) -> Result<(), OutOfMemory>
        requires within { capture < length self.old.lanes.items }
        requires small { length taken.bytes.now ≤ MOST_RECORD_BYTES }
        requires sound { IsSound self.old }
        requires port { (lane : LaneValue) → slice_get self.old.lanes.items capture ≡ Some lane
            → IsPortFor lane.cache port.now }
        ensures { OnOk result
            (ReplaysARecord capture port.now (input_of link port.now (captured_of taken.entry)) self.old
            self.new) }
    {
        let lane = &mut self.lanes[capture];
        match &read_any(link, taken.bytes) {
            AnyPacket::Ip(packet) => {
                let _judgement = self.world.judge(lane, packet, port, taken.second)?;
                Ok(())
            }
            AnyPacket::Other => self.world.pass_over(lane, Skipped::Other),
            AnyPacket::Malformed(kind) => self.world.pass_over(lane, Skipped::Malformed(*kind)),
        }
    }
}

ghost use Rattle.std.specs.Prelude.{◌≡◌, None, IfOk, OnOk, Some};
ghost use Rattle.serial_replay.specs.Running.{Closes, IsReady, RunsDue, TakesRecord, RunsOut, first_capture_of};
ghost use Rattle.serial_schedule.specs.Agenda.{NoneIsDue};
ghost use Rattle.serial_schedule.specs.Steps.{steps_of};

use crate::replay_world::ReplayWorld;
use crate::tracks::Tracks;
use capture_tracks::Replayed;
use fw_base::{OutOfMemory, Source};
use fw_rule::Items;
use report_texts::Ends;
use serial_schedule::Agenda;
use std::alloc::Global;

/// A replay that runs.
#[derive(Drop)]
pub(crate) struct Running<'a, S> {
    pub(crate) replay: ReplayWorld,
    pub(crate) tracks: Tracks<S>,
    pub(crate) agenda: Agenda<'a>,
    /// How many records were replayed.
    pub(crate) taken: u64,
}

impl<S: Source> Running<'_, S> {
    /// Runs the lines that are due before the next record.
    fn run_due(&mut self, alloc: Global) -> Result<(), OutOfMemory>
        requires { IsReady S.left S.faults self.old }
        ensures { OnOk result (RunsDue S.left S.faults self.old self.new) }
    {
        while let Some(line) = self.agenda.next_due(self.taken) {
            self.replay.run_line(alloc, line)?;
        }
        Ok(())
    }

    /// Replays the record of the capture that comes first.
    fn take_record(&mut self, capture: usize) -> Result<(), OutOfMemory>
        requires ready { IsReady S.left S.faults self.old }
        requires due { NoneIsDue self.old.taken (steps_of self.old.agenda)
            (steps_of self.old.agenda) }
        requires first { first_capture_of self.old.tracks ≡ Some capture }
        ensures { OnOk result (TakesRecord S.left S.faults self.old self.new) }
    {
        if let Some(track) = self.tracks.open_track(capture) {
            if let Some(taken) = track.capture.current() {
                let link = track.capture.link();
                self.replay
                    .replay_record(capture, link, &track.port, taken)?;
                self.tracks.advance(capture);
                self.taken += 1;
            }
        }
        Ok(())
    }

    /// Runs the lines that are left when all captures have ended.
    fn run_left(&mut self, alloc: Global) -> Result<(), OutOfMemory>
        requires ready { IsReady S.left S.faults self.old }
        requires ended { first_capture_of self.old.tracks ≡ None }
        ensures { OnOk result (RunsOut S.left S.faults self.old self.new) }
    {
        while let Some(line) = self.agenda.next_left() {
            self.replay.run_line(alloc, line)?;
        }
        Ok(())
    }

    /// Replays all records and runs all lines.
    pub(crate) fn run_all(&mut self, alloc: Global) -> Result<(), OutOfMemory>
        requires { IsReady S.left S.faults self.old }
        ensures { OnOk result (RunsOut S.left S.faults self.old self.new) }
    {
        while let Some(capture) = self.tracks.first() {
            self.run_due(alloc)?;
            self.take_record(capture)?;
        }
        self.run_left(alloc)
    }

    /// Closes the replay.
    pub(crate) fn close(self, alloc: Global) -> Result<Replayed<S>, OutOfMemory>
        requires { IsReady S.left S.faults self }
        ensures { IfOk result (Closes S.left S.faults self.entry) }
    {
        let Running {
            replay,
            tracks,
            agenda: _,
            taken: _,
        } = self;
        let ReplayWorld {
            world,
            desk,
            lanes,
            answers,
        } = replay;
        let record = world.close(lanes, desk)?;
        let (sources, ends) = tracks.close(alloc)?;
        let ends = Ends {
            captures: Items::from_vec(ends),
            answers: Items::from_vec(answers),
        };
        Ok(Replayed {
            record,
            ends,
            sources,
        })
    }
}

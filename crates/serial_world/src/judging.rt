ghost use Rattle.std.specs.Prelude.{◌≡◌, false, None, is_ok};
ghost use Rattle.fw_world.specs.Caches.{IsPortFor};
ghost use Rattle.serial_world.specs.Steps.{JudgesNext, JudgesAdmitted};
ghost use Rattle.fw_world.specs.LaneKept.{IsLane, pending_of};
ghost use Rattle.fw_world.specs.World.{IsLaneOf};

use crate::lane_state::LaneState;
use crate::{SerialInside, SerialLane, SerialWorld};
use eval_engine::Judgement;
use fw_base::{OutOfMemory, Port};
use ip6_headers::AnyIp;

impl SerialWorld {
    /// Judges the next record of a lane under the last edition.
    fn judge_record(
        &mut self,
        lane: &mut LaneState,
        packet: &AnyIp<'_>,
        port: &Port,
        second: u32,
    ) -> Result<Judgement, OutOfMemory>
        requires of_world { IsLaneOf self.old lane.old }
        requires port { IsPortFor lane.old.cache port.now }
        ensures next { JudgesNext self.old self.new lane.old lane.new packet.now port.now second
            result }
        ensures of_world { IsLaneOf self.new lane.new }
        ensures kept { IsLane 1 lane.old → IsLane (pending_of (is_ok result)) lane.new }
    {
        self.held.law_of_world();
        let place = lane.place();
        lane.work()
            .judge(&mut self.held, place, packet, port, second)
    }

    /// Judges the next record of the lane, a packet that was captured there at that second, under the last
    /// edition. A lane with a cache judges packets of one port. Where memory is wanted the lane has failed,
    /// and answers so from then on; the asks that were made stay, a beginning of those that the evaluation
    /// makes.
    pub fn judge_in(
        &mut self,
        inside: SerialInside,
        packet: &AnyIp<'_>,
        port: &Port,
        second: u32,
    ) -> (SerialInside, Result<Judgement, OutOfMemory>)
        requires of_world { IsLaneOf self.old inside.lane }
        requires fresh { inside.judged ≡ false }
        requires port { IsPortFor inside.lane.cache port.now }
        ensures next { JudgesNext self.old self.new inside.lane result.0.lane packet.now port.now
            second result.1 }
        ensures section { result.0.judged ≡ is_ok result.1 }
        ensures of_world { IsLaneOf self.new result.0.lane }
    {
        let SerialInside {
            mut state,
            judged: _,
        } = inside;
        let outcome = self.judge_record(&mut state, packet, port, second);
        let judged = outcome.is_ok();
        (SerialInside { state, judged }, outcome)
    }

    /// Judges the next record of the lane in a section of its own. Where the lane holds an earlier edition
    /// it is refused, regains and begins another section. A lane with a cache judges packets of one port.
    /// Where memory is wanted the lane has failed.
    pub fn judge(
        &mut self,
        lane: &mut SerialLane,
        packet: &AnyIp<'_>,
        port: &Port,
        second: u32,
    ) -> Result<Judgement, OutOfMemory>
        requires of_world { IsLaneOf self.old lane.old }
        requires heeded { lane.old.refusal ≡ None }
        requires port { IsPortFor lane.old.cache port.now }
        ensures next { JudgesAdmitted self.old self.new lane.old lane.new packet.now port.now second
            result }
        ensures of_world { IsLaneOf self.new lane.new }
        ensures heeded { lane.new.refusal ≡ None }
    {
        let published = self.published();
        lane.state.admit(published);
        let outcome = self.judge_record(&mut lane.state, packet, port, second);
        lane.state.leave(outcome.is_ok());
        outcome
    }
}

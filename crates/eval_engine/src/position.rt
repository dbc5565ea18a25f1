ghost use Rattle.std.specs.Prelude.{◌≡◌, []};
ghost use Rattle.eval_engine.specs.Standing.{callers_of};

use crate::callers::Callers;
use crate::{Cause, Verdict};
use fw_base::Addr;
use packet_headers::Flow;
use state_asks::{FlowName, Op};

/// What stands in the place of an ask where none was made.
const NO_ASK: Op = Op::Lookup {
    flags: 0,
    flow: Flow {
        source: Addr(0),
        destination: Addr(0),
        source_port: 0,
        destination_port: 0,
        protocol: 0,
    },
    second: 0,
    name: FlowName::Any,
};

/// Where an evaluation stands.
#[derive(Clone, Copy)]
pub(crate) struct Position {
    /// The place of the next rule; the list's length stands for its end.
    pub(crate) place: usize,
    /// The calls that are open.
    pub(crate) callers: Callers,
    /// What it asks, where it waits for a reply; else what was asked last, which nothing is said of.
    pub(crate) ask: Op,
}

impl Position {
    /// At the first rule, with no call open.
    pub(crate) fn first() -> Position
        ensures place { result.place ≡ 0 }
        ensures calls { callers_of result.callers ≡ [] }
    {
        Position {
            place: 0,
            callers: Callers::none(),
            ask: NO_ASK,
        }
    }

    /// Goes back to the first rule, with no call open.
    pub(crate) fn restart(&mut self)
        ensures place { self.new.place ≡ 0 }
        ensures calls { callers_of self.new.callers ≡ [] }
    {
        self.place = 0;
        self.callers.close_all();
    }
}

/// What comes of one rule, at the position that stands behind the step.
#[derive(Clone, Copy)]
pub(crate) enum Step {
    /// The evaluation goes on from that position.
    On,
    /// The rule in that place decides the packet; behind the last one rule 65535 denies it.
    Decides(Verdict, Cause),
    /// The evaluation waits there for the reply to the position's ask.
    Waits,
}

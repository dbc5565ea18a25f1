ghost use Rattle.std.specs.Prelude.{◌≡◌};
ghost use Rattle.eval_engine.specs.Standing.{asked_by};

use crate::position::Position;
use crate::searched::Searched;
use state_asks::Op;

/// An evaluation on its way: where it stands while it waits for a reply. `begin` and `resume` move it on in
/// place.
#[derive(Clone, Copy)]
pub struct Paused {
    /// Where it waits, and what it asks.
    pub(crate) position: Position,
    /// The flow names that were looked up.
    pub(crate) searched: Searched,
}

impl Paused {
    /// The place for an evaluation that is to begin.
    pub fn new() -> Paused {
        Paused {
            position: Position::first(),
            searched: Searched::none(),
        }
    }

    /// What the evaluation asks, where it waits.
    pub fn ask(&self) -> &Op
        ensures { result.now ≡ asked_by self.now }
    {
        &self.position.ask
    }
}

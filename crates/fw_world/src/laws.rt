//! Laws of lanes in the order of their places, the contract of a function with no body.
ghost use Rattle.std.specs.Prelude.{◌≡◌, ℕ, List};
ghost use Rattle.fw_world.specs.ByPlace.{StandFrom};

/// Lanes stand from a place on in one order at most.
pub fn lanes_stand_once<L>()
    ensures once { (place : L → ℕ) (first : ℕ) (lanes one other : List L)
        → StandFrom place first lanes one → StandFrom place first lanes other → one ≡ other }
{}

//! Laws of the definition of an evaluation, the contracts of functions that do nothing.
ghost use Rattle.eval_engine.specs.Laws.{FirstMatchDecides, EndsOnce, HitsAreOfRules};

/// Where no rule has a jump, a call or a state, the first rule whose set is enabled, whose body holds and whose action
/// ends the search decides the packet, and nothing is asked (ipfw(8), "DESCRIPTION").
pub fn first_match_decides()
    ensures { FirstMatchDecides }
{}

/// A whole evaluation used every reply: with more of them it is neither whole nor open.
pub fn evaluations_end_once()
    ensures { EndsOnce }
{}

/// Each hit is of a rule of the edition, whatever the replies.
pub fn hits_are_of_rules()
    ensures { HitsAreOfRules }
{}

//! Laws of the definition of an evaluation, the contracts of functions that do nothing.
ghost use Rattle.evaluation_laws.specs.Laws.{AsksAreAnswered, RepliesAreAsked, OpensBeforeItEnds, HasOneOutcome, InstallsAreOfRules, HitsAreOfActing, JudgesAreActing};
ghost use Rattle.evaluation_laws.specs.Runs.{EvaluationsAreRuns};

/// Under the rules of a configuration an evaluation is what the manual's sentences give, one after the other, and they
/// give exactly one (ipfw(8), "RULE ACTIONS", "STATEFUL FIREWALL").
pub fn evaluations_are_runs()
    ensures { EvaluationsAreRuns }
{}

/// A whole evaluation has as many asks as replies, and an open one has one more.
pub fn asks_are_answered()
    ensures { AsksAreAnswered }
{}

/// With more replies than asks an evaluation is neither whole nor open.
pub fn replies_are_asked()
    ensures { RepliesAreAsked }
{}

/// Before each of its replies a whole evaluation was open at an ask, and the reply is one to it.
pub fn evaluations_open_before_they_end()
    ensures { OpensBeforeItEnds }
{}

/// Of the beginnings of a list of replies one at most is whole.
pub fn evaluations_have_one_outcome()
    ensures { HasOneOutcome }
{}

/// Each install names a rule of the edition, of a set that isn't disabled.
pub fn installs_are_of_rules()
    ensures { InstallsAreOfRules }
{}

/// Each hit is of a rule of the edition whose set isn't disabled or whose state was found.
pub fn disabled_rules_never_act()
    ensures { HitsAreOfActing }
{}

/// The rule that decides is rule 65535, or one whose set isn't disabled or whose state was found.
pub fn disabled_rules_never_decide()
    ensures { JudgesAreActing }
{}

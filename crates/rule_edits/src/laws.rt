//! A law of the definition of commands, the contract of a function that does nothing.
ghost use Rattle.rule_edits.specs.Touching.{UntouchedRulesStay};

/// A command that touches no rule leaves the rules and the flow names as they were.
pub fn untouched_rules_stay()
    ensures { UntouchedRulesStay }
{}

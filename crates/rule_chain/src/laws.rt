//! Laws of every configuration, the contracts of functions that do nothing.
ghost use Rattle.rule_chain.specs.Chain.{IsConfiguration, StandInOrder, HaveOwnIdentities, HaveOwnCounters};

use crate::Config;

/// Its rules, sets, tables, settings and names are those of a configuration (ipfw(8)), as an evaluation requires.
pub fn law_of_configuration(config: &Config)
    ensures { IsConfiguration config.now }
{
    // This call's clause `lawful` tells it.
    let _rules = config.rules();
}

/// The rules by their places: of two rules the one before hasn't the greater number, and they differ in their
/// identities and in their counter numbers (ipfw(8), "RULE FORMAT").
pub fn places_tell_rules_apart(config: &Config)
    ensures order { StandInOrder config.now.rules }
    ensures identities { HaveOwnIdentities config.now.rules }
    ensures counters { HaveOwnCounters config.now.rules }
{
    // This call's clause `lawful` tells what the laws stand on.
    let _rules = config.rules();
}

ghost use Rattle.std.specs.Prelude.{◌≡◌, IfOk, map};
ghost use Rattle.std.specs.Arc.{arc_value};
ghost use Rattle.fw_rule.specs.WellFormed.{IsSet};
ghost use Rattle.rule_edits.specs.Answers.{Gives};
ghost use Rattle.rule_edits.specs.Apply as spec;
ghost use Rattle.rule_edits.specs.Moves.{set_after};
ghost use Rattle.rule_edits.specs.Rules as lists;

use crate::ApplyFault;
use crate::edited::Edited;
use crate::moves::Moves;
use crate::numbers::has_rule;
use crate::owned::own_rule;
use fw_base::OutOfMemory;
use fw_rule::Rule;
use rule_chain::{LAST_NUMBER, LAST_SET, RuleList};
use std::alloc::Global;
use std::sync::Arc;

/// The rules, each in its set after the moves. A rule that stays in its set is no copy.
fn move_rules(
    alloc: Global,
    rules: Vec<Arc<Rule>>,
    moves: Moves,
) -> Result<Vec<Arc<Rule>>, OutOfMemory>
    ensures { IfOk result (λ moved. map arc_value moved.items
        ≡ lists.move_rules (set_after moves) (map arc_value rules.items)) }
{
    let mut moved = Vec::with_capacity(alloc, rules.len())?;
    for rule in rules {
        let set = moves.set_after(&rule);
        if set == rule.set {
            moved.push(rule)?;
        } else {
            let mut owned = own_rule(alloc, rule)?;
            owned.set = set;
            moved.push(Arc::new(alloc, owned)?)?;
        }
    }
    Ok(moved)
}

/// The same of a list that other configurations may have.
fn moved(alloc: Global, rules: RuleList, moves: Moves) -> Result<RuleList, OutOfMemory>
    ensures { IfOk result (λ after. after ≡ lists.move_rules (set_after moves) rules) }
{
    let owned = rules.own(alloc)?;
    RuleList::new(alloc, move_rules(alloc, owned, moves)?)
}

impl Edited {
    /// `set disable .. enable ..`: the disabling, then the enabling.
    #[tactic(auto, unfolding(crate::specs::Apply::set_mask))]
    pub(crate) fn set_mask(mut self, disable: u32, enable: u32) -> Result<Edited, ApplyFault>
        ensures { Gives result (spec.set_mask self disable enable) }
    {
        if disable >> LAST_SET != 0 {
            return Err(ApplyFault::ReservedSet);
        }
        self.disabled = (self.disabled | disable) & !enable;
        Ok(self)
    }

    /// `set move`: all rules of the one set go into the other.
    #[tactic(auto, unfolding(crate::specs::Apply::move_set))]
    pub(crate) fn move_set(mut self, alloc: Global, from: u8, to: u8) -> Result<Edited, ApplyFault>
        requires { IsSet to }
        ensures { Gives result (spec.move_set self from to) }
    {
        if from == LAST_SET || to == LAST_SET {
            return Err(ApplyFault::ReservedSet);
        }
        self.rules = moved(alloc, self.rules, Moves::Set { from, to })?;
        Ok(self)
    }

    /// `set move rule`: all rules of the number go into the set.
    #[tactic(auto, unfolding(crate::specs::Apply::move_rule))]
    pub(crate) fn move_rule(
        mut self,
        alloc: Global,
        number: u16,
        to: u8,
    ) -> Result<Edited, ApplyFault>
        requires { IsSet to }
        ensures { Gives result (spec.move_rule self number to) }
    {
        if to == LAST_SET {
            return Err(ApplyFault::ReservedSet);
        }
        if number == LAST_NUMBER {
            return Err(ApplyFault::ReservedRule);
        }
        if !has_rule(self.rules.rules(), number) {
            return Err(ApplyFault::NoSuchRule);
        }
        self.rules = moved(alloc, self.rules, Moves::Number { number, to })?;
        Ok(self)
    }

    /// `set swap`: the rules of each of the two sets go into the other. The disabled sets stay.
    #[tactic(auto, unfolding(crate::specs::Apply::swap_sets))]
    pub(crate) fn swap_sets(
        mut self,
        alloc: Global,
        first: u8,
        second: u8,
    ) -> Result<Edited, ApplyFault>
        requires first { IsSet first }
        requires second { IsSet second }
        ensures { Gives result (spec.swap_sets self first second) }
    {
        if first == LAST_SET || second == LAST_SET {
            return Err(ApplyFault::ReservedSet);
        }
        self.rules = moved(alloc, self.rules, Moves::Swap { first, second })?;
        Ok(self)
    }
}

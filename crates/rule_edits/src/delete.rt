ghost use Rattle.std.specs.Prelude.{◌≡◌, IfOk, map};
ghost use Rattle.std.specs.Arc.{arc_value};
ghost use Rattle.rule_edits.specs.Answers.{Gives, first_fault};
ghost use Rattle.rule_edits.specs.Apply as spec;
ghost use Rattle.rule_chain.specs.Chain.{AscendsFrom};
ghost use Rattle.rule_edits.specs.Rules as lists;

use crate::ApplyFault;
use crate::edited::Edited;
use crate::number_set::NumberSet;
use crate::numbers::has_rule;
use fw_base::OutOfMemory;
use fw_rule::Rule;
use rule_chain::{LAST_NUMBER, LAST_SET, RuleList};
use std::alloc::Global;
use std::sync::Arc;

/// The first of the numbers that can't be deleted.
fn deletion_fault(rules: &[Arc<Rule>], numbers: &[u16]) -> Option<ApplyFault>
    requires { AscendsFrom 1 (map arc_value rules.now) }
    ensures { result ≡ first_fault (spec.deletion_fault (map arc_value rules.now)) numbers.now }
{
    for number in numbers {
        if *number == LAST_NUMBER {
            return Some(ApplyFault::ReservedRule);
        }
        if !has_rule(rules, *number) {
            return Some(ApplyFault::NoSuchRule);
        }
    }
    None
}

/// Takes out the rules of these numbers.
fn take_numbers(rules: &mut Vec<Arc<Rule>>, numbers: &NumberSet)
    ensures { map arc_value rules.new.items
        ≡ lists.without_numbers numbers.now (map arc_value rules.old.items) }
{
    rules.retain(|rule| !numbers.has(rule.number));
}

/// Takes out the rules of the set, but for rule 65535.
fn take_set(rules: &mut Vec<Arc<Rule>>, set: u8)
    ensures { map arc_value rules.new.items
        ≡ lists.without_set set (map arc_value rules.old.items) }
{
    rules.retain(|rule| rule.set != set || rule.number == LAST_NUMBER);
}

/// Takes out the rules of all sets but 31.
fn take_unreserved(rules: &mut Vec<Arc<Rule>>)
    ensures { map arc_value rules.new.items
        ≡ lists.rules_kept_by_flush (map arc_value rules.old.items) }
{
    rules.retain(|rule| rule.set == LAST_SET);
}

fn without_numbers(alloc: Global, rules: RuleList, numbers: &[u16]) -> Result<RuleList, OutOfMemory>
    ensures { IfOk result (λ left. left ≡ lists.without_numbers numbers.now rules) }
{
    let named = NumberSet::of(alloc, numbers)?;
    let mut owned = rules.own(alloc)?;
    take_numbers(&mut owned, &named);
    RuleList::new(alloc, owned)
}

fn without_set(alloc: Global, rules: RuleList, set: u8) -> Result<RuleList, OutOfMemory>
    ensures { IfOk result (λ left. left ≡ lists.without_set set rules) }
{
    let mut owned = rules.own(alloc)?;
    take_set(&mut owned, set);
    RuleList::new(alloc, owned)
}

fn flushed(alloc: Global, rules: RuleList) -> Result<RuleList, OutOfMemory>
    ensures { IfOk result (λ left. left ≡ lists.rules_kept_by_flush rules) }
{
    let mut owned = rules.own(alloc)?;
    take_unreserved(&mut owned);
    RuleList::new(alloc, owned)
}

impl Edited {
    /// `delete`: the rules of all these numbers go, or none. It takes the time of a walk over the rules and
    /// one over the numbers.
    #[tactic(auto, unfolding(crate::specs::Apply::delete_rules))]
    pub(crate) fn delete_rules(
        mut self,
        alloc: Global,
        numbers: &[u16],
    ) -> Result<Edited, ApplyFault>
        ensures { Gives result (spec.delete_rules self numbers.now) }
    {
        if let Some(fault) = deletion_fault(self.rules.rules(), numbers) {
            return Err(fault);
        }
        self.rules = without_numbers(alloc, self.rules, numbers)?;
        Ok(self)
    }

    /// `delete set`: the set's rules go, but rule 65535.
    #[tactic(auto, unfolding(crate::specs::Apply::delete_set))]
    pub(crate) fn delete_set(mut self, alloc: Global, set: u8) -> Result<Edited, ApplyFault>
        ensures { Gives result (spec.delete_set self set) }
    {
        self.rules = without_set(alloc, self.rules, set)?;
        Ok(self)
    }

    /// `flush`: the rules of all sets but 31 go.
    #[tactic(auto, unfolding(crate::specs::Apply::flush_rules))]
    pub(crate) fn flush_rules(mut self, alloc: Global) -> Result<Edited, ApplyFault>
        ensures { Gives result (spec.flush_rules self) }
    {
        self.rules = flushed(alloc, self.rules)?;
        Ok(self)
    }
}

ghost use Rattle.std.specs.Prelude.{◌≡◌, ◌+◌, ◌<◌, ◌^◌, IfOk, map};
ghost use Rattle.std.specs.Arc.{arc_value};
ghost use Rattle.rule_edits.specs.Answers.{Gives, first_fault};
ghost use Rattle.rule_edits.specs.Apply as spec;
ghost use Rattle.rule_chain.specs.Chain.{AscendsFrom};
ghost use Rattle.rule_edits.specs.Rules as lists;

use crate::ApplyFault;
use crate::edited::Edited;
use crate::number_set::NumberSet;
use crate::numbers::has_rule;
use crate::owned::own_rule;
use fw_base::OutOfMemory;
use fw_rule::Rule;
use rule_chain::{MOST_COUNTERS, RuleList};
use std::alloc::Global;
use std::sync::Arc;

/// The first of the numbers that no rule has.
fn zeroing_fault(rules: &[Arc<Rule>], numbers: &[u16]) -> Option<ApplyFault>
    requires { AscendsFrom 1 (map arc_value rules.now) }
    ensures { result ≡ first_fault (spec.zeroing_fault (map arc_value rules.now)) numbers.now }
{
    for number in numbers {
        if !has_rule(rules, *number) {
            return Some(ApplyFault::NoSuchRule);
        }
    }
    None
}

/// Whether `zero` of these numbers names the rule.
fn is_zeroed(numbers: &NumberSet, rule: &Rule) -> bool
    ensures { result ≡ lists.is_zeroed numbers.now rule.now }
{
    numbers.is_empty() || numbers.has(rule.number)
}

/// How many rules `zero` of these numbers names.
fn count_zeroed(rules: &[Arc<Rule>], numbers: &NumberSet) -> usize
    ensures { result ≡ lists.count_of (lists.is_zeroed numbers.now) (map arc_value rules.now) }
{
    let mut count = 0;
    for rule in rules {
        if is_zeroed(numbers, rule) {
            count += 1;
        }
    }
    count
}

/// The rules, of which each that is named has the next counter number, in order.
#[tactic(auto, unfolding(crate::specs::Rules::renumber))]
fn renumber(
    alloc: Global,
    rules: Vec<Arc<Rule>>,
    numbers: &NumberSet,
    first: u32,
) -> Result<Vec<Arc<Rule>>, OutOfMemory>
    requires { first + lists.count_of (lists.is_zeroed numbers.now) (map arc_value rules.items)
        < 2 ^ 32 }
    ensures { IfOk result (λ renumbered. map arc_value renumbered.items
        ≡ lists.renumber (lists.is_zeroed numbers.now) first (map arc_value rules.items)) }
{
    let mut renumbered = Vec::with_capacity(alloc, rules.len())?;
    let mut next = first;
    for rule in rules {
        if is_zeroed(numbers, &rule) {
            let mut fresh = own_rule(alloc, rule)?;
            fresh.counter = next;
            next += 1;
            renumbered.push(Arc::new(alloc, fresh)?)?;
        } else {
            renumbered.push(rule)?;
        }
    }
    Ok(renumbered)
}

/// The same of a list that other configurations may have.
fn renumbered(
    alloc: Global,
    rules: RuleList,
    numbers: &NumberSet,
    first: u32,
) -> Result<RuleList, OutOfMemory>
    requires { first + lists.count_of (lists.is_zeroed numbers.now) rules < 2 ^ 32 }
    ensures { IfOk result (λ after. after
        ≡ lists.renumber (lists.is_zeroed numbers.now) first rules) }
{
    let owned = rules.own(alloc)?;
    RuleList::new(alloc, renumber(alloc, owned, numbers, first)?)
}

impl Edited {
    /// `zero`: each rule of these numbers, or each where none is named, gets a fresh counter number. It
    /// takes the time of a walk over the rules and one over the numbers.
    #[tactic(auto, unfolding(crate::specs::Apply::zero_counters))]
    pub(crate) fn zero_counters(
        mut self,
        alloc: Global,
        numbers: &[u16],
    ) -> Result<Edited, ApplyFault>
        ensures { Gives result (spec.zero_counters self numbers.now) }
    {
        if let Some(fault) = zeroing_fault(self.rules.rules(), numbers) {
            return Err(fault);
        }
        let named = NumberSet::of(alloc, numbers)?;
        let count = count_zeroed(self.rules.rules(), &named) as u32;
        if count > MOST_COUNTERS - 1 - self.greatest_counter {
            return Err(ApplyFault::TooManyCounters);
        }
        self.rules = renumbered(alloc, self.rules, &named, self.greatest_counter + 1)?;
        self.greatest_counter += count;
        Ok(self)
    }
}

ghost use Rattle.std.specs.Prelude.{◌≡◌, ◌<◌, IfSome, Ok, IfOk, IfErr, OnOk, length, map};
ghost use Rattle.std.specs.Arc.{arc_value};
ghost use Rattle.fw_rule.specs.WellFormed.{IsDraft};
ghost use Rattle.rule_edits.specs.Adding as adding;
ghost use Rattle.rule_edits.specs.Adding.{IsReadyFor};
ghost use Rattle.rule_edits.specs.Answers.{Gives, IsRefusal};
ghost use Rattle.rule_edits.specs.Apply as spec;
ghost use Rattle.rule_chain.specs.Chain.{AscendsFrom};
ghost use Rattle.rule_chain.specs.Names.{name_of, number_of_name};
ghost use Rattle.rule_edits.specs.Rules as lists;

use crate::ApplyFault;
use crate::edited::Edited;
use crate::new_names::with_name_of;
use crate::numbers::place_behind;
use crate::uses::with_tables_of;
use fw_base::OutOfMemory;
use fw_rule::{Rule, RuleDraft};
use rule_chain::{LAST_NUMBER, MOST_COUNTERS, MOST_RULES, RuleList};
use std::alloc::Global;
use std::sync::Arc;

/// How far an automatic number stands behind the greatest.
const STEP: u16 = 100;

/// The greatest number below 65535, 0 where there is none.
fn greatest_number(rules: &[Arc<Rule>]) -> u16
    requires { AscendsFrom 1 (map arc_value rules.now) }
    ensures value { result ≡ lists.greatest_number (map arc_value rules.now) }
    ensures below { result < 65535 }
{
    if rules.len() < 2 {
        0
    } else {
        rules[rules.len() - 2].number
    }
}

/// The number of a rule that is added without one.
#[tactic(auto, unfolding(crate::specs::Rules::automatic_number))]
fn automatic_number(rules: &[Arc<Rule>]) -> u16
    requires { AscendsFrom 1 (map arc_value rules.now) }
    ensures { result ≡ lists.automatic_number (map arc_value rules.now) }
{
    let greatest = greatest_number(rules);
    if greatest <= LAST_NUMBER - 1 - STEP {
        greatest + STEP
    } else {
        greatest
    }
}

/// The number that a draft gets.
fn chosen_number(rules: &[Arc<Rule>], number: Option<u16>) -> u16
    requires { AscendsFrom 1 (map arc_value rules.now) }
    ensures { result ≡ lists.chosen_number (map arc_value rules.now) number }
{
    match number {
        None | Some(0) => automatic_number(rules),
        Some(given) => given,
    }
}

/// Puts the rule before the first of a greater number. The search takes logarithmic time.
fn insert_rule(rules: &mut Vec<Arc<Rule>>, rule: Arc<Rule>) -> Result<(), OutOfMemory>
    requires { AscendsFrom 1 (map arc_value rules.old.items) }
    ensures { OnOk result (map arc_value rules.new.items
        ≡ lists.insert_rule (arc_value rule) (map arc_value rules.old.items)) }
{
    let number = rule.number;
    let place = place_behind(rules, number);
    rules.insert(place, rule)?;
    Ok(())
}

/// The list with the rule in its place.
fn with_rule(alloc: Global, rules: RuleList, rule: Rule) -> Result<RuleList, OutOfMemory>
    requires { AscendsFrom 1 rules }
    ensures { IfOk result (λ after. after ≡ lists.insert_rule rule rules) }
{
    let mut owned = rules.own(alloc)?;
    insert_rule(&mut owned, Arc::new(alloc, rule)?)?;
    RuleList::new(alloc, owned)
}

/// Why no rule of this number can be added, if anything speaks against it.
fn adding_fault(config: &Edited, number: u16) -> Option<ApplyFault>
    ensures { result ≡ adding.adding_fault config.now number }
{
    if number == LAST_NUMBER {
        return Some(ApplyFault::ReservedRule);
    }
    if config.rules.rules().len() >= MOST_RULES {
        return Some(ApplyFault::TooManyRules);
    }
    if config.greatest_counter + 1 >= MOST_COUNTERS {
        return Some(ApplyFault::TooManyCounters);
    }
    None
}

/// The rule of a draft, under its number, identity and counter number.
fn rule_of(draft: RuleDraft, number: u16, id: u32, counter: u32) -> Rule
    ensures { result ≡ lists.rule_of draft number id counter }
{
    Rule {
        number,
        set: draft.set,
        id,
        counter,
        action: draft.action,
        log: draft.log,
        body: draft.body,
    }
}

impl Edited {
    /// Gives the draft's flow name a number and makes its tables, where it lacks them.
    fn with_name_and_tables(
        mut self,
        alloc: Global,
        draft: &RuleDraft,
    ) -> Result<Edited, ApplyFault>
        ensures value { Gives result (adding.with_name_and_tables self draft.now) }
        ensures named { IfOk result (λ after. IfSome (name_of draft.now.action draft.now.body)
            (λ name. number_of_name after.names name < length after.names)) }
    {
        self.names = with_name_of(alloc, self.names, &draft.action, &draft.body)?;
        self.tables = with_tables_of(alloc, self.tables, &draft.body)?;
        Ok(self)
    }

    /// The configuration into which the draft's rule can be put under this number.
    fn ready_for(self, alloc: Global, number: u16, draft: &RuleDraft) -> Result<Edited, ApplyFault>
        requires { number ≡ lists.chosen_number self.rules draft.now.number }
        ensures err { IfErr result (λ fault. IsRefusal fault (spec.add_rule self draft.now)) }
        ensures ok { IfOk result (λ after.
            spec.add_rule self draft.now ≡ Ok (spec.with_rule after draft.now)) }
        ensures ready { IfOk result (λ after. IsReadyFor after number draft.now) }
    {
        match adding_fault(&self, number) {
            Some(fault) => Err(fault),
            None => self.with_name_and_tables(alloc, draft),
        }
    }

    /// Puts the draft's rule in its place, under the next identity and the next counter number.
    fn with_drafted_rule(
        mut self,
        alloc: Global,
        number: u16,
        draft: RuleDraft,
    ) -> Result<Edited, OutOfMemory>
        requires draft { IsDraft draft }
        requires ready { IsReadyFor self number draft }
        ensures { IfOk result (λ after. after ≡ spec.with_rule self draft) }
    {
        let rule = rule_of(
            draft,
            number,
            self.greatest_id + 1,
            self.greatest_counter + 1,
        );
        self.rules = with_rule(alloc, self.rules, rule)?;
        self.greatest_id += 1;
        self.greatest_counter += 1;
        Ok(self)
    }

    /// `add`: the draft as a rule, behind those of its number.
    pub(crate) fn add_rule(self, alloc: Global, draft: RuleDraft) -> Result<Edited, ApplyFault>
        requires { IsDraft draft }
        ensures { Gives result (spec.add_rule self draft) }
    {
        let number = chosen_number(self.rules.rules(), draft.number);
        let ready = self.ready_for(alloc, number, &draft)?;
        Ok(ready.with_drafted_rule(alloc, number, draft)?)
    }
}

ghost use Rattle.std.specs.Prelude.{◌≡◌, true, ◌+◌, ◌<◌, false, Some, length, drop};
ghost use Rattle.fw_rule.specs.declared.rule.Rule.{Rule};
ghost use Rattle.rule_gates.specs.Keys.{HasAddresses, IsKeyOf};
ghost use Rattle.eval_engine.specs.Encounter as spec;
ghost use Rattle.eval_engine.specs.Place.{IsRuleAt, IsTold};
ghost use Rattle.eval_engine.specs.Question.{rules_of};
ghost use Rattle.eval_engine.specs.Standing.{IsTallyFor, callers_of, seen_by};
ghost use Rattle.eval_engine.specs.Steps.{walk_at, paused_at, judgement_from, IsStep, LeadsOn, Comes, PassesTo};
ghost use Rattle.eval_engine.specs.Trace.{Seen};
ghost use Rattle.eval_engine.specs.Walk as definition;
ghost use Rattle.eval_engine.specs.declared.judgement.Cause.TheVariants as cause;
ghost use Rattle.eval_engine.specs.declared.searched.Searched.{Searched};
ghost use Rattle.eval_engine.specs.declared.position.Step.TheVariants.{On};

use crate::encounter::{
    first_behind, install_by, is_disabled, is_held, lookup_by, lookup_flow, rule_at, rule_ref,
    target,
};
use crate::position::{Position, Step};
use crate::searched::Searched;
use crate::{Cause, Judgement, Question, Verdict};
use counter_book::Tally;
use fw_rule::{Action, Rule, StateOpt};
use packet_headers::Flow;
use rule_gates::{GateKey, is_check_state, is_exact, next_admitted, state_of};
use state_asks::LAST_RULE;

/// Goes on behind the rule in that place.
fn leave(question: &Question<'_, '_, '_>, at: &mut Position)
    requires { at.old.place < 65535 }
    ensures { (seen : Seen)
        → walk_at question.now seen at.new
        ≡ definition.walk_from question.now seen (callers_of at.old.callers)
        (drop (at.old.place + 1) (rules_of question.now)) 0 }
{
    at.place += 1;
}

/// The rule in that place is passed over.
fn pass_over(question: &Question<'_, '_, '_>, at: &mut Position) -> Step
    requires { at.old.place < 65535 }
    ensures on { result ≡ On }
    ensures next { (seen : Seen)
        → walk_at question.now seen at.new
        ≡ definition.walk_from question.now seen (callers_of at.old.callers)
        (drop (at.old.place + 1) (rules_of question.now)) 0 }
{
    leave(question, at);
    Step::On
}

/// `call` goes on at the first rule of that number or a higher one; where no call more may be open it is passed over.
#[inline(never)]
fn call(question: &Question<'_, '_, '_>, at: &mut Position, rule: &Rule)
    requires there { IsRuleAt question.now at.old.place rule.now }
    requires called { spec.IsCall rule.now.action }
    ensures { (seen : Seen)
        → definition.follows_before question.now seen (callers_of at.old.callers) rule.now
        (drop (at.old.place + 1) (rules_of question.now))
        ≡ walk_at question.now seen at.new }
{
    if at.callers.is_full() {
        leave(question, at);
    } else {
        at.place = target(question, at.place, rule);
        at.callers.push(rule.number);
    }
}

/// `return` goes on behind the last call; where there is none it is passed over.
#[inline(never)]
fn back(question: &Question<'_, '_, '_>, at: &mut Position)
    requires { at.old.place < 65535 }
    ensures { (seen : Seen)
        → definition.return_before question.now seen (callers_of at.old.callers)
        (drop (at.old.place + 1) (rules_of question.now))
        ≡ walk_at question.now seen at.new }
{
    match at.callers.pop() {
        Some(number) => at.place = first_behind(question, number),
        None => leave(question, at),
    }
}

/// `count` goes on behind its place, `skipto` at a later rule.
fn onward(question: &Question<'_, '_, '_>, at: &mut Position, rule: &Rule)
    requires there { IsRuleAt question.now at.old.place rule.now }
    requires onward { spec.IsOnward rule.now.action }
    ensures { (seen : Seen)
        → definition.follows_before question.now seen (callers_of at.old.callers) rule.now
        (drop (at.old.place + 1) (rules_of question.now))
        ≡ walk_at question.now seen at.new }
{
    at.place = target(question, at.place, rule);
}

/// The rule decides the packet, with a verdict that ends the search.
fn decided(question: &Question<'_, '_, '_>, at: &Position, rule: &Rule, verdict: Verdict) -> Step
    requires { IsRuleAt question.now at.now.place rule.now }
    ensures { (searched : Searched)
        → IsStep question.now searched
        (definition.trace_of_judgement question.now verdict (spec.rule_ref rule.now) cause.Rule)
        result at.now }
{
    Step::Decides(verdict, Cause::Rule)
}

/// What follows the rule's action.
#[inline(always)]
fn follow(question: &Question<'_, '_, '_>, at: &mut Position, rule: &Rule) -> Step
    requires { IsRuleAt question.now at.old.place rule.now }
    ensures { (searched : Searched)
        → IsStep question.now searched
        (definition.follows_before question.now (seen_by searched) (callers_of at.old.callers)
        rule.now (drop (at.old.place + 1) (rules_of question.now))) result at.new }
{
    match &rule.action {
        Action::Allow => decided(question, at, rule, Verdict::Allow),
        Action::Deny => decided(question, at, rule, Verdict::Deny),
        Action::Reset => decided(question, at, rule, Verdict::Reset),
        Action::Unreach(code) => decided(question, at, rule, Verdict::Unreach(*code)),
        Action::Count | Action::SkipTo(_) | Action::CheckState(_) => {
            onward(question, at, rule);
            Step::On
        }
        Action::Call(_) => {
            call(question, at, rule);
            Step::On
        }
        Action::Return => {
            back(question, at);
            Step::On
        }
    }
}

/// The rule is counted, and its action runs.
#[inline(always)]
pub(crate) fn act(
    question: &Question<'_, '_, '_>,
    at: &mut Position,
    rule: &Rule,
    tally: &mut Tally,
) -> Step
    requires there { IsRuleAt question.now at.old.place rule.now }
    requires fitted { IsTallyFor question.now tally.old }
    ensures { (searched : Searched)
        → LeadsOn question.now searched
        (definition.acts_before question.now (seen_by searched) (callers_of at.old.callers) rule.now
        (drop (at.old.place + 1) (rules_of question.now))) result at.new tally.old tally.new }
{
    tally.hit(rule.counter, question.packet.total());
    follow(question, at, rule)
}

/// The rule behind its lookup: it is passed over, asks for a state or acts.
#[inline(always)]
pub(crate) fn test(
    question: &Question<'_, '_, '_>,
    searched: &Searched,
    at: &mut Position,
    rule: &Rule,
    tally: &mut Tally,
) -> Step
    requires there { IsRuleAt question.now at.old.place rule.now }
    requires fitted { IsTallyFor question.now tally.old }
    ensures { LeadsOn question.now searched.now
        (definition.tests_before question.now (seen_by searched.now) (callers_of at.old.callers)
        rule.now (drop (at.old.place + 1) (rules_of question.now))) result at.new tally.old
        tally.new }
{
    if is_check_state(&rule.action) {
        return pass_over(question, at);
    }
    if is_held(question, rule) {
        install(question, searched, at, rule, tally)
    } else {
        pass_over(question, at)
    }
}

/// The rule in that place asks for a state of this flow.
#[inline(never)]
fn ask_install(
    question: &Question<'_, '_, '_>,
    at: &mut Position,
    rule: &Rule,
    state: &StateOpt,
    flow: Flow,
)
    requires there { IsRuleAt question.now at.old.place rule.now }
    requires plain { spec.is_check_state rule.now.action ≡ false }
    requires made { spec.state_of rule.now ≡ Some state.now }
    ensures { at.new ≡ record at.old {
      ask = spec.install_by question.now rule.now state.now flow;
    } }
{
    at.ask = install_by(question, at.place, rule, state, flow);
}

/// A rule whose body holds asks for a state, if it makes one, or acts.
#[inline(always)]
fn install(
    question: &Question<'_, '_, '_>,
    searched: &Searched,
    at: &mut Position,
    rule: &Rule,
    tally: &mut Tally,
) -> Step
    requires there { IsRuleAt question.now at.old.place rule.now }
    requires plain { spec.is_check_state rule.now.action ≡ false }
    requires fitted { IsTallyFor question.now tally.old }
    ensures { LeadsOn question.now searched.now
        (definition.installs_before question.now (seen_by searched.now) (callers_of at.old.callers)
        rule.now (drop (at.old.place + 1) (rules_of question.now))) result at.new tally.old
        tally.new }
{
    let Some(state) = state_of(rule) else {
        return act(question, at, rule, tally);
    };
    match question.flow() {
        Some(flow) => {
            ask_install(question, at, rule, state, flow);
            Step::Waits
        }
        None => pass_over(question, at),
    }
}

/// The rule in that place looks this flow up.
#[inline(never)]
fn ask_lookup(question: &Question<'_, '_, '_>, at: &mut Position, rule: &Rule, flow: Flow)
    requires { IsRuleAt question.now at.old.place rule.now }
    ensures { at.new ≡ record at.old {
      ask = spec.lookup_by question.now rule.now flow;
    } }
{
    at.ask = lookup_by(question, at.place, rule, flow);
}

/// The rule in this place: it is passed over, looked up, or tested. Where its gate told all it acts at once.
fn meet(
    question: &Question<'_, '_, '_>,
    searched: &Searched,
    is_told: bool,
    at: &mut Position,
    rule: &Rule,
    tally: &mut Tally,
) -> Step
    requires there { IsRuleAt question.now at.old.place rule.now }
    requires told { is_told ≡ true → IsTold question.now rule.now }
    requires fitted { IsTallyFor question.now tally.old }
    ensures { LeadsOn question.now searched.now (walk_at question.now (seen_by searched.now) at.old)
        result at.new tally.old tally.new }
{
    if is_disabled(question, rule) {
        return pass_over(question, at);
    }
    if is_told {
        return act(question, at, rule, tally);
    }
    match lookup_flow(question, searched, at.place, rule) {
        Some(flow) => {
            ask_lookup(question, at, rule, flow);
            Step::Waits
        }
        None => test(question, searched, at, rule, tally),
    }
}

/// Goes on behind the rules whose gates don't admit the packet's key: each of them is passed over. Whether
/// the gate there tells all of its rule: it looks nothing up, and its body holds.
fn pass_shut_gates(question: &Question<'_, '_, '_>, key: &GateKey, at: &mut Position) -> bool
    requires key { IsKeyOf question.now.packet key.now }
    requires addresses { HasAddresses question.now.packet }
    ensures passes { (seen : Seen)
        → PassesTo (walk_at question.now seen at.old) (walk_at question.now seen at.new) }
    ensures told { result ≡ true → (rule : Rule)
        → IsRuleAt question.now at.new.place rule → IsTold question.now rule }
{
    let gates = question.edition.gates();
    let place = next_admitted(gates, at.place, key);
    at.place = place;
    let all = gates.as_slice();
    place < all.len() && is_exact(&all[place])
}

/// The next rule whose gate admits the packet's key, or the end of the rules.
fn step(
    question: &Question<'_, '_, '_>,
    key: &GateKey,
    searched: &Searched,
    at: &mut Position,
    tally: &mut Tally,
) -> Step
    requires key { IsKeyOf question.now.packet key.now }
    requires addresses { HasAddresses question.now.packet }
    requires fitted { IsTallyFor question.now tally.old }
    ensures { LeadsOn question.now searched.now (walk_at question.now (seen_by searched.now) at.old)
        result at.new tally.old tally.new }
{
    let is_told = pass_shut_gates(question, key, at);
    match rule_at(question, at.place) {
        Some(rule) => meet(question, searched, is_told, at, rule, tally),
        None => Step::Decides(Verdict::Deny, Cause::Rule),
    }
}

/// The judgement by the rule in that place; behind the last one rule 65535 denies.
pub(crate) fn judgement_at(
    question: &Question<'_, '_, '_>,
    place: usize,
    verdict: Verdict,
    cause: Cause,
) -> Judgement
    ensures { result ≡ judgement_from question.now verdict cause
        (drop place (rules_of question.now)) }
{
    let (verdict, rule, cause) = match rule_at(question, place) {
        Some(rule) => (verdict, rule_ref(rule), cause),
        None => (Verdict::Deny, LAST_RULE, Cause::Rule),
    };
    Judgement {
        edition: question.edition.number(),
        verdict,
        rule,
        cause,
    }
}

/// From there to the next ask or to the end. Of the packet gates ask its key.
pub(crate) fn walk(
    question: &Question<'_, '_, '_>,
    key: &GateKey,
    searched: &Searched,
    at: &mut Position,
    tally: &mut Tally,
) -> Option<Judgement>
    requires key { IsKeyOf question.now.packet key.now }
    requires addresses { HasAddresses question.now.packet }
    requires fitted { IsTallyFor question.now tally.old }
    ensures { Comes question.now (walk_at question.now (seen_by searched.now) at.old) result
        (paused_at searched.now at.new) tally.old tally.new }
{
    loop {
        match step(question, key, searched, at, tally) {
            Step::On => {}
            Step::Decides(verdict, cause) => {
                return Some(judgement_at(question, at.place, verdict, cause));
            }
            Step::Waits => return None,
        }
    }
}

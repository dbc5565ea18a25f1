ghost use Rattle.std.specs.Prelude.{◌≡◌, ℕ, ◌+◌, ◌<◌, ◌≤◌, false, Some, [], MatchOption, drop, length};
ghost use Rattle.state_asks.specs.declared.op.FlowName.TheVariants.{Named};
ghost use Rattle.generation_store.specs.Jumps as jumps;
ghost use Rattle.eval_engine.specs.Encounter as spec;
ghost use Rattle.eval_engine.specs.Place.{IsRuleAt};
ghost use Rattle.eval_engine.specs.Walk as walk;
ghost use Rattle.evaluation_laws.specs.Views.{viewed_question, seen_by};

use crate::question::Question;
use crate::searched::Searched;
use fw_rule::{LimitMask, Rule, StateOpt, has_bit};
use ip6_headers::AnyIp;
use packet_headers::{Flow, flow};
use rule_gates::looks_up;
use rule_match::matches;
use state_asks::{FlowName, Op, RuleRef, kept_flags};

/// The rule in that place; `None` behind the last.
pub(crate) fn rule_at<'a>(question: &Question<'a, '_>, place: usize) -> Option<&'a Rule>
    ensures { MatchOption result (drop place question.now.edition.now.config.rules ≡ []) (λ rule.
        IsRuleAt (viewed_question question.now) place rule.now) }
{
    let rules = question.edition.config().rules();
    if place < rules.len() {
        Some(&rules[place])
    } else {
        None
    }
}

/// Whether the rule's set is disabled.
#[tactic(auto, unfolding(eval_engine::specs::Encounter::is_disabled))]
pub(crate) fn is_disabled(question: &Question<'_, '_>, rule: &Rule) -> bool
    ensures { result ≡ spec.is_disabled (viewed_question question.now) rule.now }
{
    rule.set < 32 && has_bit(question.edition.config().disabled(), u32::from(rule.set))
}

/// Whether the rule's body holds of the packet.
#[tactic(auto, unfolding(eval_engine::specs::Encounter::is_rule_met))]
pub(crate) fn is_held(question: &Question<'_, '_>, rule: &Rule) -> bool
    ensures { result ≡ spec.is_rule_met (viewed_question question.now) rule.now }
{
    match &rule.body {
        Some(body) => {
            let config = question.edition.config();
            matches(
                body,
                config.tables(),
                config.locals(),
                question.packet,
                question.port,
            )
        }
        None => false,
    }
}

/// The packet's flow; an IPv6 packet has none.
pub(crate) fn flow_of(question: &Question<'_, '_>) -> Option<Flow>
    ensures { result ≡ spec.any_flow_of question.now.packet.now }
{
    match question.packet {
        AnyIp::Four(packet) => flow(packet),
        AnyIp::Six(_) => None,
    }
}

/// The flow name that the rule in that place looks up.
pub(crate) fn name_at(question: &Question<'_, '_>, place: usize, rule: &Rule) -> FlowName
    requires { IsRuleAt (viewed_question question.now) place rule.now }
    ensures { result ≡ spec.name_at (viewed_question question.now) rule.now }
{
    question.edition.name_of(place)
}

/// The packet's flow, where the rule's name is due.
pub(crate) fn lookup_flow(
    question: &Question<'_, '_>,
    searched: &Searched,
    place: usize,
    rule: &Rule,
) -> Option<Flow>
    requires { IsRuleAt (viewed_question question.now) place rule.now }
    ensures { result
        ≡ walk.lookup_flow (viewed_question question.now) (seen_by searched.now) rule.now }
{
    if looks_up(rule) && searched.is_due(name_at(question, place, rule)) {
        flow_of(question)
    } else {
        None
    }
}

/// Of TCP's flags those that an ask has, 0 where it isn't TCP.
fn flags_of(question: &Question<'_, '_>) -> u8
    ensures { result ≡ spec.flags_of question.now.packet.now }
{
    kept_flags(question.packet.tcp_flags().unwrap_or(0))
}

/// The rule, as states and judgements name it.
pub(crate) fn rule_ref(rule: &Rule) -> RuleRef
    ensures { result ≡ spec.rule_ref rule.now }
{
    RuleRef {
        id: rule.id,
        number: rule.number,
    }
}

/// The lookup that the rule asks for.
pub(crate) fn lookup_by(question: &Question<'_, '_>, place: usize, rule: &Rule, flow: Flow) -> Op
    requires { IsRuleAt (viewed_question question.now) place rule.now }
    ensures { result ≡ spec.lookup_by (viewed_question question.now) rule.now flow }
{
    Op::Lookup {
        flow,
        flags: flags_of(question),
        second: question.second,
        name: name_at(question, place, rule),
    }
}

fn limit_of(state: &StateOpt) -> Option<(LimitMask, u16)>
    ensures { result ≡ spec.state_limit_of state.now }
{
    match state {
        StateOpt::Keep(_) => None,
        StateOpt::Limit(mask, most, _) => Some((*mask, *most)),
    }
}

fn name_number(name: FlowName) -> u8
    ensures { (number : ℕ) → name ≡ Named number → result ≡ number }
{
    match name {
        FlowName::Any => 0,
        FlowName::Named(number) => number,
    }
}

/// The install that the rule, which is no `check-state`, asks for.
pub(crate) fn install_by(
    question: &Question<'_, '_>,
    place: usize,
    rule: &Rule,
    state: &StateOpt,
    flow: Flow,
) -> Op
    requires there { IsRuleAt (viewed_question question.now) place rule.now }
    requires plain { spec.is_check_state rule.now.action ≡ false }
    requires made { spec.state_of rule.now ≡ Some state.now }
    ensures { result ≡ spec.install_by (viewed_question question.now) rule.now state.now flow }
{
    Op::Install {
        flow,
        flags: flags_of(question),
        second: question.second,
        rule: rule_ref(rule),
        limit: limit_of(state),
        name: name_number(name_at(question, place, rule)),
    }
}

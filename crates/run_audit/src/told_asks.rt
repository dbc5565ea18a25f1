ghost use Rattle.std.specs.Prelude.{IsTrue, ◌≡◌, ◌<◌, ◌≤◌, true, length, position, IfSome, nat_eq};
ghost use Rattle.std.specs.Cmp.Lexicographic.{pointwise};
ghost use Rattle.run_audit.specs.ToldAsks as spec;
ghost use Rattle.state_asks.specs.Flags.{asked_flags};
ghost use Rattle.state_asks.specs.RuleLists.{has_id};
ghost use Rattle.state_journal.specs.Journal.{NamesRuleOf};
ghost use Rattle.report_reading.specs.AskLines.{printed_reply};

use fw_base::Name;
use generation_store::Edition;
use state_asks::{FlowName, Op, Reply, RuleRef, Way};

/// Where the name stands among these.
fn place_among(names: &[Name], name: &[u8]) -> Option<usize>
    ensures value { result ≡ position (λ other. pointwise nat_eq other name.now) names.now }
    ensures within { IfSome result (λ place. place < length names.now) }
{
    names.iter().position(|other| other.bytes() == name)
}

/// The number of the name among the flow names of an edition; `None` exactly where it is none of
/// them.
fn number_among(edition: &Edition, name: &[u8]) -> Option<u8>
    ensures { result ≡ spec.number_among edition.now.config.names name.now }
{
    let place = place_among(edition.config().names(), name)?;
    Some(place as u8)
}

/// The rule of this identity with its number; `None` exactly where the edition has none.
fn rule_among(edition: &Edition, id: u32) -> Option<RuleRef>
    ensures value { result ≡ spec.rule_among edition.now.config.rules id }
    ensures ruled { IfSome result (λ rule. IsTrue (has_id edition.now.facts.rules rule.id)) }
{
    let place = edition.place_of(id)?;
    let rule = edition.config().rules().get(place)?;
    Some(RuleRef {
        id,
        number: rule.number,
    })
}

/// The name that a lookup asks for, by its number in the edition.
fn flow_name_under(edition: &Edition, asked: FlowName, name: &[u8]) -> Option<FlowName>
    ensures { result ≡ spec.flow_name_under edition.now.config.names asked name.now }
{
    match asked {
        FlowName::Any => Some(FlowName::Any),
        FlowName::Named(_) => Some(FlowName::Named(number_among(edition, name)?)),
    }
}

/// What is asked by an ask that is told, with the rule and the flow name of the edition; `None`
/// exactly where it has no rule of that identity, or no such name.
#[tactic(auto, unfolding(crate::specs::ToldAsks::op_under))]
pub(crate) fn op_under(edition: &Edition, told: &Op, name: &[u8]) -> Option<Op>
    ensures value { result ≡ spec.op_under edition.now told.now name.now }
    ensures ruled { IfSome result (NamesRuleOf edition.now.facts.rules) }
    ensures flagged { IfSome result (λ op. asked_flags op ≡ asked_flags told.now) }
{
    match *told {
        Op::Lookup {
            flags,
            flow,
            second,
            name: asked,
        } => {
            let named = flow_name_under(edition, asked, name)?;
            Some(Op::Lookup {
                flags,
                flow,
                second,
                name: named,
            })
        }
        Op::Install {
            flags,
            flow,
            second,
            rule,
            limit,
            ..
        } => {
            let made = rule_among(edition, rule.id)?;
            let numbered = number_among(edition, name)?;
            Some(Op::Install {
                flags,
                flow,
                second,
                rule: made,
                limit,
                name: numbered,
            })
        }
    }
}

/// Which kind of reply it is, and its number.
fn reply_mark(reply: &Reply) -> (u8, u32)
    ensures { result ≡ spec.reply_mark reply.now }
{
    match *reply {
        Reply::Found(Way::Forward, rule) => (0, rule.id),
        Reply::Found(Way::Reverse, rule) => (1, rule.id),
        Reply::NotFound => (2, 0),
        Reply::Created => (3, 0),
        Reply::Exists => (4, 0),
        Reply::LimitReached(count) => (5, count),
        Reply::TableFull(count) => (6, count),
    }
}

/// Whether two replies have one mark.
fn are_marked_alike(reply: &Reply, told: &Reply) -> bool
    ensures { result ≡ spec.are_told_alike reply.now told.now }
{
    let (kind, number) = reply_mark(reply);
    let (told_kind, told_number) = reply_mark(told);
    kind == told_kind && number == told_number
}

/// Whether a line that tells the one reply tells the other: they are one but for the number of a
/// rule.
pub(crate) fn are_told_alike(reply: &Reply, told: &Reply) -> bool
    ensures value { result ≡ spec.are_told_alike reply.now told.now }
    ensures alike { result ≡ true → printed_reply reply.now ≡ printed_reply told.now }
    ensures all { printed_reply reply.now ≡ printed_reply told.now → result ≡ true }
{
    are_marked_alike(reply, told)
}

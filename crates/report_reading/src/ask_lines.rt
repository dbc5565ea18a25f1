ghost use Rattle.std.specs.Prelude.{◌≡◌, codes, nat_eq};
ghost use Rattle.std.specs.Cmp.Lexicographic.{pointwise};
ghost use Rattle.std.specs.Option.{option_map};
ghost use Rattle.report_reading.specs.AskLines as spec;

use crate::ask_parts::{Question, asked_question, flags, reply};
use crate::flow_texts::{flow, name};
use crate::parts::{behind, number, positive};
use fw_base::MOST_CAPTURES;
use fw_rule::ANY_FLOW;
use packet_headers::Flow;
use state_asks::{FlowName, Op, Reply, RuleRef};

/// What the line of an ask tells. Of a rule it tells the identity alone: the number is 0. The flow name
/// stands beside what is asked, in which its number is 0.
#[derive(Clone, Copy)]
pub struct AskLine<'a> {
    /// The lane, 1 to 16.
    pub lane: u64,
    /// Its record, from 1.
    pub at: u64,
    pub op: Op,
    /// The flow name that is asked for, or `any`.
    pub name: &'a [u8],
    pub reply: Reply,
}

/// Whether a name stands for every flow.
fn is_any(name: &[u8]) -> bool
    ensures { result ≡ pointwise nat_eq name.now (codes "any") }
{
    name == ANY_FLOW
}

/// The name that a lookup asks for.
fn looked_up(name: &[u8]) -> FlowName
    ensures { result ≡ spec.looked_up name.now }
{
    if is_any(name) {
        FlowName::Any
    } else {
        FlowName::Named(0)
    }
}

/// What is asked by these parts; an install of `any` is nothing.
#[tactic(auto, unfolding(crate::specs::AskLines::op_of))]
fn op_of(question: Question, name: &[u8], flags: u8, flow: Flow, second: u32) -> Option<Op>
    ensures { result ≡ spec.op_of question name.now flags flow second }
{
    match question {
        Question::Lookup => Some(Op::Lookup {
            flags,
            flow,
            second,
            name: looked_up(name),
        }),
        Question::Install(id, limit) => {
            if is_any(name) {
                return None;
            }
            Some(Op::Install {
                flags,
                flow,
                second,
                rule: RuleRef { id, number: 0 },
                limit,
                name: 0,
            })
        }
    }
}

/// The ask behind a record's numbers and a second, to the line's end.
#[tactic(auto, unfolding(crate::specs::AskLines::asked_in))]
fn asked_in(lane: u64, at: u64, second: u32, text: &[u8]) -> Option<AskLine<'_>>
    ensures { option_map spec.value_of_ask result ≡ spec.asked_in lane at second text.now }
{
    let (question, rest) = asked_question(text)?;
    let (name, rest) = name(rest)?;
    let (flow, rest) = flow(rest)?;
    let (flags, rest) = flags(rest)?;
    let op = op_of(question, name, flags, flow, second)?;
    let reply = reply(rest)?;
    Some(AskLine {
        lane,
        at,
        op,
        name,
        reply,
    })
}

/// What the line of an ask tells; `None` where the line is none.
#[tactic(auto, unfolding(crate::specs::AskLines::ask_in))]
pub(crate) fn ask_in(line: &[u8]) -> Option<AskLine<'_>>
    ensures { option_map spec.value_of_ask result ≡ spec.ask_in line.now }
{
    let (lane, rest) = positive(behind(b"ask ", line)?, u64::from(MOST_CAPTURES))?;
    let (at, rest) = positive(behind(b".", rest)?, u64::MAX)?;
    let (second, rest) = number(behind(b" ", rest)?, u64::from(u32::MAX))?;
    asked_in(lane, at, second as u32, rest)
}

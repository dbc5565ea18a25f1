ghost use Rattle.std.specs.Prelude.{◌≡◌, ◌<◌, ◌==◌, true, None, Some, Ok, length, IfOk, IfSome, OnSome};
ghost use Rattle.eval_engine.specs.Dockets.{judged_entry};
ghost use Rattle.eval_engine.specs.declared.judgement.Judgement.{Judgement};
ghost use Rattle.eval_engine.specs.Evaluation.{evaluate};
ghost use Rattle.eval_engine.specs.Question.{question_under};
ghost use Rattle.fw_world.specs.AskRuns.{RisesBy};
ghost use Rattle.ip6_headers.specs.Either.{total_of};
ghost use Rattle.report_reading.specs.RecordLines.{printed_rule, printed};
ghost use Rattle.run_audit.specs.ToldEvaluations.{ComesTo, replies_told};

use crate::told_evaluations::evaluate_told;
use counter_book::Tally;
use eval_engine::{DocketEntry, Judgement};
use fw_base::{OutOfMemory, Port};
use generation_store::Edition;
use ip6_headers::AnyIp;
use rule_chain::law_of_configuration;
use state_asks::{Op, Reply, RuleRef};

/// A rule by its number alone, as a line tells it.
fn printed_rule(rule: RuleRef) -> RuleRef
    ensures { result ≡ printed_rule rule }
{
    let number = rule.number;
    RuleRef { id: 0, number }
}

/// What a line tells of an entry.
fn printed_entry(entry: &DocketEntry) -> DocketEntry
    ensures { result ≡ printed entry.now }
{
    match *entry {
        DocketEntry::Other => DocketEntry::Other,
        DocketEntry::Malformed(kind) => DocketEntry::Malformed(kind),
        DocketEntry::Judged {
            verdict,
            rule,
            edition,
        } => DocketEntry::Judged {
            verdict,
            rule: printed_rule(rule),
            edition,
        },
        DocketEntry::Limited {
            verdict,
            rule,
            states,
            edition,
        } => DocketEntry::Limited {
            verdict,
            rule: printed_rule(rule),
            states,
            edition,
        },
        DocketEntry::Full {
            verdict,
            rule,
            states,
            edition,
        } => DocketEntry::Full {
            verdict,
            rule: printed_rule(rule),
            states,
            edition,
        },
    }
}

/// Whether both are one entry.
fn is_same(entry: &DocketEntry, other: &DocketEntry) -> bool
    ensures same { result ≡ true → entry.now ≡ other.now }
    ensures all { entry.now ≡ other.now → result ≡ true }
{
    entry == other
}

/// Whether what a line tells is what it would tell of this entry.
pub(crate) fn is_told_as(told: &DocketEntry, entry: &DocketEntry) -> bool
    ensures same { result ≡ true → told.now ≡ printed entry.now }
    ensures all { told.now ≡ printed entry.now → result ≡ true }
{
    is_same(told, &printed_entry(entry))
}

/// The judgement to which the evaluation of a packet comes with these replies, where it makes
/// exactly these asks. Its hits are counted; where it doesn't, some may be.
pub(crate) fn judged_under(
    edition: &Edition,
    packet: &AnyIp<'_>,
    port: &Port,
    second: u32,
    asked: &[(Op, Reply)],
    tally: &mut Tally,
) -> Result<Option<Judgement>, OutOfMemory>
    ensures judged { IfOk result (λ found. IfSome found
        (ComesTo (question_under edition.now packet.now port.now second) asked.now)) }
    ensures counted { IfOk result (λ found. OnSome found (RisesBy (total_of packet.now)
        (evaluate (question_under edition.now packet.now port.now second)
        (replies_told asked.now)).hits tally.old tally.new)) }
    ensures only { result ≡ Ok None → (judgement : Judgement)
        → ComesTo (question_under edition.now packet.now port.now second) asked.now judgement → ⊥ }
{
    let config = edition.config();
    law_of_configuration(config);
    tally.fit(config.counters())?;
    Ok(evaluate_told(edition, packet, port, second, asked, tally))
}

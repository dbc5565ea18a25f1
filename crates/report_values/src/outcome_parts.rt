ghost use Rattle.std.specs.Prelude.{◌≡◌, ◌++◌, ◌<◌, codes, decimal, if◌then◌else◌, IfOk, OnOk, length, map, slice_get, Some};
ghost use Rattle.std.specs.List.{flat_map};
ghost use Rattle.rule_text.specs.Canonical.{code_word};
ghost use Rattle.report_values.specs.Outcomes as spec;

use crate::{KnownRule, KnownRules};
use eval_engine::{DocketEntry, Verdict};
use fw_base::OutOfMemory;
use fw_rule::{Items, UNREACH_NAMES};
use itoa::Buffer;
use std::alloc::Global;

/// Stands behind a verdict of a rule whose limit was reached.
const AT_A_LIMIT: &[u8] = b" at a limit";

/// Stands behind a verdict of a rule for whose state there was no room.
const WITH_ALL_STATES_TAKEN: &[u8] = b" with all states taken";

/// Appends a text.
fn put_text(text: &mut Vec<u8>, more: &[u8]) -> Result<(), OutOfMemory>
    ensures { OnOk result (text.new.items ≡ text.old.items ++ more.now) }
{
    text.extend_from_slice(more)?;
    Ok(())
}

/// Appends a number in decimal digits.
fn put_number(text: &mut Vec<u8>, number: u64) -> Result<(), OutOfMemory>
    ensures { OnOk result (text.new.items ≡ text.old.items ++ decimal number) }
{
    let mut digits = Buffer::new();
    put_text(text, digits.format(number).as_bytes())
}

fn name_at<'x>(names: &'x [&'x [u8]], place: usize) -> &'x [u8]
    requires { place < length names.now }
    ensures { slice_get (map (λ name. name.now) names.now) place ≡ Some result.now }
{
    names[place]
}

/// Appends a code of `unreach`, by name where it has one.
fn put_code(text: &mut Vec<u8>, code: u8) -> Result<(), OutOfMemory>
    ensures { OnOk result (text.new.items ≡ text.old.items ++ code_word code) }
{
    let place = usize::from(code);
    if place < UNREACH_NAMES.len() {
        put_text(text, name_at(&UNREACH_NAMES, place))
    } else {
        put_number(text, u64::from(code))
    }
}

/// Appends the verdict of a code of `unreach`.
fn put_unreach(text: &mut Vec<u8>, code: u8) -> Result<(), OutOfMemory>
    ensures { OnOk result (text.new.items ≡ text.old.items ++ (codes "unreach " ++ code_word code)) }
{
    put_text(text, b"unreach ")?;
    put_code(text, code)?;
    Ok(())
}

/// Appends a verdict with its code.
fn put_verdict(text: &mut Vec<u8>, verdict: Verdict) -> Result<(), OutOfMemory>
    ensures { OnOk result (text.new.items ≡ text.old.items ++ spec.verdict_part verdict) }
{
    match verdict {
        Verdict::Allow => put_text(text, b"allow"),
        Verdict::Deny => put_text(text, b"deny"),
        Verdict::Reset => put_text(text, b"reset"),
        Verdict::Unreach(code) => put_unreach(text, code),
    }
}

/// Whether the rule has this number in this edition.
fn is_numbered(rule: &KnownRule<'_>, edition: u64, number: u16) -> bool
    ensures { result ≡ spec.is_numbered edition number rule.now }
{
    rule.edition == edition && rule.number == number
}

/// Appends a rule by its text.
fn put_known(text: &mut Vec<u8>, rule: &KnownRule<'_>) -> Result<(), OutOfMemory>
    ensures { OnOk result (text.new.items ≡ text.old.items ++ (codes ", by " ++ rule.now.text.now)) }
{
    put_text(text, b", by ")?;
    put_text(text, rule.text)?;
    Ok(())
}

/// Appends a rule by its text, where it has this number in this edition.
fn put_rule(
    text: &mut Vec<u8>,
    rule: &KnownRule<'_>,
    edition: u64,
    number: u16,
) -> Result<(), OutOfMemory>
    ensures { OnOk result (text.new.items ≡ text.old.items ++ spec.rule_part edition number rule.now) }
{
    if is_numbered(rule, edition, number) {
        put_known(text, rule)
    } else {
        put_text(text, b"")
    }
}

/// The texts of the rules of this number in this edition.
fn known_texts(
    alloc: Global,
    known: &[KnownRule<'_>],
    edition: u64,
    number: u16,
) -> Result<Vec<u8>, OutOfMemory>
    ensures { IfOk result (λ told. told.items ≡ flat_map (spec.rule_part edition number) known.now) }
{
    let mut told = Vec::new(alloc);
    for rule in known {
        put_rule(&mut told, rule, edition, number)?;
    }
    Ok(told)
}

/// Appends a rule of which the report has no text.
#[tactic(auto, unfolding(crate::specs::Outcomes::unknown_part))]
fn put_unknown(text: &mut Vec<u8>, edition: u64, number: u16) -> Result<(), OutOfMemory>
    ensures { OnOk result (text.new.items ≡ text.old.items ++ spec.unknown_part edition number) }
{
    put_text(text, b", by rule ")?;
    put_number(text, u64::from(number))?;
    put_text(text, b" of edition ")?;
    put_number(text, edition)?;
    Ok(())
}

/// Appends these texts of rules, or a rule without.
fn put_known_or(
    text: &mut Vec<u8>,
    told: &[u8],
    edition: u64,
    number: u16,
) -> Result<(), OutOfMemory>
    ensures { OnOk result (text.new.items ≡ text.old.items ++ spec.known_or told.now edition number) }
{
    match told {
        [] => put_unknown(text, edition, number),
        [_, ..] => put_text(text, told),
    }
}

/// Appends the rules of a number in an edition, by their texts.
#[tactic(auto, unfolding(crate::specs::Outcomes::rules_part))]
fn put_rules(
    alloc: Global,
    text: &mut Vec<u8>,
    known: &KnownRules<'_>,
    edition: u64,
    number: u16,
) -> Result<(), OutOfMemory>
    ensures { OnOk result (text.new.items
        ≡ text.old.items ++ spec.rules_part known.now edition number) }
{
    let told = known_texts(alloc, known.around(edition, number), edition, number)?;
    put_known_or(text, &told, edition, number)?;
    Ok(())
}

/// What a judged record came to, with these words behind the verdict.
#[tactic(auto, unfolding(crate::specs::Outcomes::judged_part))]
fn judged_part(
    alloc: Global,
    known: &KnownRules<'_>,
    verdict: Verdict,
    words: &[u8],
    edition: u64,
    number: u16,
) -> Result<Vec<u8>, OutOfMemory>
    ensures { IfOk result (λ text. text.items
        ≡ spec.judged_part known.now verdict words.now edition number) }
{
    let mut text = Vec::new(alloc);
    put_verdict(&mut text, verdict)?;
    put_text(&mut text, words)?;
    put_rules(alloc, &mut text, known, edition, number)?;
    Ok(text)
}

/// This text.
fn plain_part(alloc: Global, words: &[u8]) -> Result<Vec<u8>, OutOfMemory>
    ensures { IfOk result (λ text. text.items ≡ words.now) }
{
    Ok(Vec::from_slice(alloc, words)?)
}

/// That a header of this kind can't be read.
fn malformed_part(alloc: Global, kind: u8) -> Result<Vec<u8>, OutOfMemory>
    ensures { IfOk result (λ text. text.items ≡ codes "malformed, kind " ++ decimal kind) }
{
    let mut text = plain_part(alloc, b"malformed, kind ")?;
    put_number(&mut text, u64::from(kind))?;
    Ok(text)
}

/// What a record came to: the verdict, and the rule by its text.
fn outcome_bytes(
    alloc: Global,
    known: &KnownRules<'_>,
    entry: &DocketEntry,
) -> Result<Vec<u8>, OutOfMemory>
    ensures { IfOk result (λ text. text.items ≡ spec.outcome_text known.now entry.now) }
{
    match *entry {
        DocketEntry::Other => plain_part(alloc, b"no IP"),
        DocketEntry::Malformed(kind) => malformed_part(alloc, kind),
        DocketEntry::Judged {
            verdict,
            rule,
            edition,
        } => judged_part(alloc, known, verdict, b"", edition, rule.number),
        DocketEntry::Limited {
            verdict,
            rule,
            edition,
            ..
        } => judged_part(alloc, known, verdict, AT_A_LIMIT, edition, rule.number),
        DocketEntry::Full {
            verdict,
            rule,
            edition,
            ..
        } => judged_part(
            alloc,
            known,
            verdict,
            WITH_ALL_STATES_TAKEN,
            edition,
            rule.number,
        ),
    }
}

/// What a record came to: the verdict, and the rule by its text.
pub fn outcome_text(
    alloc: Global,
    known: &KnownRules<'_>,
    entry: &DocketEntry,
) -> Result<Items<u8>, OutOfMemory>
    ensures { IfOk result (λ text. text ≡ spec.outcome_text known.now entry.now) }
{
    let text = outcome_bytes(alloc, known, entry)?;
    Ok(Items::from_vec(text))
}

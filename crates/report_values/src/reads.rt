ghost use Rattle.std.specs.Prelude.{◌≡◌, ℕ, [], codes};
ghost use Rattle.report_values.specs.Fields as fields;
ghost use Rattle.report_values.specs.Lines as spec;

use crate::fields::{counted_rule, hits_in, lane_in, rule_number, whole_number};
use crate::{CountedRule, Lines, Unfit};
use std::alloc::Global;

/// What stands behind this word in the next line, which a report has here.
pub(crate) fn wanted<'a>(lines: &mut Lines<'a>, word: &[u8]) -> Result<&'a [u8], Unfit<'a>>
    ensures { spec.Reads (λ told. told.now)
        (spec.or_at lines.old.rest.now (spec.told_at word.now lines.old.rest.now))
        lines.new.rest.now result }
{
    match lines.behind(word) {
        Some(told) => Ok(told),
        None => Err(Unfit::At(lines.rest)),
    }
}

/// The number behind this word in the next line.
#[tactic(auto, unfolding(crate::specs::Lines::line_of))]
pub(crate) fn wanted_number<'a>(lines: &mut Lines<'a>, word: &[u8]) -> Result<u64, Unfit<'a>>
    ensures { spec.Reads (λ value. value)
        (spec.line_of fields.whole_number word.now lines.old.rest.now) lines.new.rest.now result }
{
    let line = lines.rest;
    match whole_number(wanted(lines, word)?) {
        Some(value) => Ok(value),
        None => Err(Unfit::At(line)),
    }
}

/// The next line, whatever it is.
#[tactic(auto, unfolding(crate::specs::Lines::line_of))]
fn any_line<'a>(lines: &mut Lines<'a>) -> Result<&'a [u8], Unfit<'a>>
    ensures { (number : ℕ) → spec.Reads (λ told. told.now)
        (spec.line_of (spec.any number) [] lines.old.rest.now) lines.new.rest.now result }
{
    wanted(lines, b"")
}

/// The number of a rule at the front of the next line, and the rule's text.
#[tactic(auto, unfolding(crate::specs::Lines::line_of))]
fn rule_line<'a>(lines: &mut Lines<'a>) -> Result<(u16, &'a [u8]), Unfit<'a>>
    ensures { spec.Reads (λ rule. (rule.0, rule.1.now))
        (spec.line_of fields.rule_number_at [] lines.old.rest.now) lines.new.rest.now result }
{
    let line = lines.rest;
    match rule_number(wanted(lines, b"")?) {
        Some(rule) => Ok(rule),
        None => Err(Unfit::At(line)),
    }
}

/// The rule in the next line, with what it counted.
#[tactic(auto, unfolding(crate::specs::Lines::line_of))]
fn counted_line<'a>(lines: &mut Lines<'a>) -> Result<CountedRule<'a>, Unfit<'a>>
    ensures { spec.Reads (λ rule. (rule.number, rule.packets, rule.bytes, rule.text.now))
        (spec.line_of fields.counted_rule [] lines.old.rest.now) lines.new.rest.now result }
{
    let line = lines.rest;
    match counted_rule(wanted(lines, b"")?) {
        Some(rule) => Ok(rule),
        None => Err(Unfit::At(line)),
    }
}

/// The hits of this capture's cache, in the next line.
#[tactic(auto, unfolding(crate::specs::Lines::line_of))]
fn hits_line<'a>(lines: &mut Lines<'a>, capture: u64) -> Result<u64, Unfit<'a>>
    ensures { spec.Reads (λ hits. hits)
        (spec.line_of (fields.hits_in capture) (codes "cache ") lines.old.rest.now)
        lines.new.rest.now result }
{
    let line = lines.rest;
    match hits_in(wanted(lines, b"cache ")?, capture) {
        Some(hits) => Ok(hits),
        None => Err(Unfit::At(line)),
    }
}

/// The tracker of this capture's lane, in the next line.
#[tactic(auto, unfolding(crate::specs::Lines::line_of))]
fn lane_line<'a>(lines: &mut Lines<'a>, capture: u64) -> Result<u64, Unfit<'a>>
    ensures { spec.Reads (λ tracker. tracker)
        (spec.line_of (fields.lane_in capture) (codes "lane ") lines.old.rest.now)
        lines.new.rest.now result }
{
    let line = lines.rest;
    match lane_in(wanted(lines, b"lane ")?, capture) {
        Some(tracker) => Ok(tracker),
        None => Err(Unfit::At(line)),
    }
}

/// Passes over so many lines, whatever they are.
pub(crate) fn pass_lines<'a>(lines: &mut Lines<'a>, count: u64) -> Result<(), Unfit<'a>>
    ensures { spec.ReadsTo (spec.lines_of spec.any [] 1 count lines.old.rest.now)
        lines.new.rest.now result }
{
    for _ in 0..count {
        let _line = any_line(lines)?;
    }
    Ok(())
}

/// So many lines, whatever they are.
pub(crate) fn read_lines<'a>(
    alloc: Global,
    lines: &mut Lines<'a>,
    count: u64,
) -> Result<Vec<&'a [u8]>, Unfit<'a>>
    ensures { spec.ReadsTo (spec.lines_of spec.any [] 1 count lines.old.rest.now)
        lines.new.rest.now result }
{
    let mut read = Vec::new(alloc);
    for _ in 0..count {
        read.push(any_line(lines)?)?;
    }
    Ok(read)
}

/// So many rules by their numbers and texts.
pub(crate) fn rule_lines<'a>(
    alloc: Global,
    lines: &mut Lines<'a>,
    count: u64,
) -> Result<Vec<(u16, &'a [u8])>, Unfit<'a>>
    ensures { spec.ReadsTo (spec.lines_of (λ number. fields.rule_number_at) [] 1 count
        lines.old.rest.now) lines.new.rest.now result }
{
    let mut rules = Vec::new(alloc);
    for _ in 0..count {
        rules.push(rule_line(lines)?)?;
    }
    Ok(rules)
}

/// So many rules with what they counted.
pub(crate) fn counted_lines<'a>(
    alloc: Global,
    lines: &mut Lines<'a>,
    count: u64,
) -> Result<Vec<CountedRule<'a>>, Unfit<'a>>
    ensures { spec.ReadsTo (spec.lines_of (λ number. fields.counted_rule) [] 1 count
        lines.old.rest.now) lines.new.rest.now result }
{
    let mut rules = Vec::new(alloc);
    for _ in 0..count {
        rules.push(counted_line(lines)?)?;
    }
    Ok(rules)
}

/// The hits of the caches of so many captures, in their order.
pub(crate) fn hits_lines<'a>(
    alloc: Global,
    lines: &mut Lines<'a>,
    captures: u64,
) -> Result<Vec<u64>, Unfit<'a>>
    ensures { spec.ReadsTo (spec.lines_of fields.hits_in (codes "cache ") 1 captures
        lines.old.rest.now) lines.new.rest.now result }
{
    let mut hits = Vec::new(alloc);
    for place in 0..captures {
        hits.push(hits_line(lines, place + 1)?)?;
    }
    Ok(hits)
}

/// Reads what a journal tells of the lanes of so many captures, in their order.
pub(crate) fn pass_lanes<'a>(lines: &mut Lines<'a>, captures: u64) -> Result<(), Unfit<'a>>
    ensures { spec.ReadsTo (spec.lines_of fields.lane_in (codes "lane ") 1 captures
        lines.old.rest.now) lines.new.rest.now result }
{
    for place in 0..captures {
        let _tracker = lane_line(lines, place + 1)?;
    }
    Ok(())
}

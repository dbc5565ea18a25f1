ghost use Rattle.std.specs.Prelude.{◌≡◌, ◌<◌, map};
ghost use Rattle.std.specs.Arc.{arc_value};
ghost use Rattle.std.specs.List.{flat_map};
ghost use Rattle.fw_base.specs.Texts.{WritesText};
ghost use Rattle.rule_text.specs.Canonical.{rest_text};
ghost use Rattle.report_texts.specs.RulesText as text;

use crate::answer_lines::write_count;
use crate::line::Line;
use counter_book::{Tally, total};
use fw_base::{Failed, Sink, write_text};
use fw_rule::{Rule, has_bit};
use rule_text::write_rule_rest;
use std::sync::Arc;

/// Writes how many editions were published.
#[tactic(auto, unfolding(report_texts::specs::RulesText::editions_line))]
pub(crate) fn write_editions<K: Sink>(out: &mut K, count: usize) -> Result<(), Failed>
    ensures { WritesText (K.state out.old) (K.state out.new) (text.editions_line count) result }
{
    let mut line = Line::new();
    line.put_text(b"\n");
    line.put_number(count as u64);
    line.put_text(b"editions ");
    line.write(out)
}

/// Writes the set where the mask has its bit.
fn write_set<K: Sink>(out: &mut K, mask: u32, set: u32) -> Result<(), Failed>
    requires { set < 32 }
    ensures { WritesText (K.state out.old) (K.state out.new) (text.set_text mask set) result }
{
    if has_bit(mask, set) {
        let mut line = Line::new();
        line.put_number(u64::from(set));
        line.put_text(b" ");
        line.write(out)
    } else {
        Ok(())
    }
}

/// Writes the sets of which the mask has the bit.
fn write_sets<K: Sink>(out: &mut K, mask: u32) -> Result<(), Failed>
    ensures { WritesText (K.state out.old) (K.state out.new) (text.sets_text mask 32 0) result }
{
    for set in 0..32 {
        write_set(out, mask, set)?;
    }
    Ok(())
}

/// Writes the disabled sets, where there is one.
#[tactic(auto, unfolding(report_texts::specs::RulesText::disabled_line))]
pub(crate) fn write_disabled<K: Sink>(out: &mut K, disabled: u32) -> Result<(), Failed>
    ensures { WritesText (K.state out.old) (K.state out.new) (text.disabled_text disabled) result }
{
    if disabled == 0 {
        return Ok(());
    }
    write_text(out, b"disabled")?;
    write_sets(out, disabled)?;
    write_text(out, b"\n")
}

fn write_rest<K: Sink>(out: &mut K, rule: &Rule) -> Result<(), Failed>
    ensures { WritesText (K.state out.old) (K.state out.new) (rest_text rule.now) result }
{
    write_rule_rest(rule, out).map_err(|_| Failed)
}

/// Writes a rule's number and what was counted for it.
#[tactic(auto, unfolding(report_texts::specs::RulesText::counts_text))]
fn write_counts<K: Sink>(out: &mut K, tallies: &[Tally], rule: &Rule) -> Result<(), Failed>
    ensures { WritesText (K.state out.old) (K.state out.new)
        (text.counts_text tallies.now rule.now) result }
{
    let counted = total(tallies, rule.counter);
    let mut line = Line::new();
    line.put_number(counted.bytes);
    line.put_text(b" ");
    line.put_number(counted.packets);
    line.put_text(b" ");
    line.put_five_digits(rule.number);
    line.write(out)
}

/// Writes a rule's line with its counts.
fn write_counted<K: Sink>(out: &mut K, tallies: &[Tally], rule: &Arc<Rule>) -> Result<(), Failed>
    ensures { WritesText (K.state out.old) (K.state out.new)
        (text.counted_line tallies.now (arc_value rule.now)) result }
{
    write_counts(out, tallies, rule)?;
    write_rest(out, rule)?;
    write_text(out, b"\n")
}

fn write_counted_lines<K: Sink>(
    out: &mut K,
    tallies: &[Tally],
    rules: &[Arc<Rule>],
) -> Result<(), Failed>
    ensures { WritesText (K.state out.old) (K.state out.new)
        (flat_map (λ rule. text.counted_line tallies.now (arc_value rule)) rules.now) result }
{
    for rule in rules {
        write_counted(out, tallies, rule)?;
    }
    Ok(())
}

/// Writes the rules with their counts.
pub(crate) fn write_counted_rules<K: Sink>(
    out: &mut K,
    tallies: &[Tally],
    rules: &[Arc<Rule>],
) -> Result<(), Failed>
    ensures { WritesText (K.state out.old) (K.state out.new)
        (text.rules_text tallies.now (map arc_value rules.now)) result }
{
    write_count(out, rules.len())?;
    write_counted_lines(out, tallies, rules)
}

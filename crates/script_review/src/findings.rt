ghost use Rattle.std.specs.List.{AllByRecursion};
ghost use Rattle.fw_command.specs.WellFormed.{IsLine};

use crate::rule_parts::{asks_for_me, asks_table, interface_of, is_asked_for};
use crate::takers::{first_taker, is_beaten};
use fw_base::{Name, OutOfMemory};
use fw_command::{Line, Pace, Script, ScriptFault, Step, parse_script};
use fw_rule::{Command, Iface, Rule, RuleDraft, TableCommand};
use rule_chain::Config;
use rule_edits::{ApplyFault, apply, is_changing};
use std::alloc::Global;
use std::sync::Arc;

/// What a script may not have too many of.
#[derive(Clone, Copy)]
pub enum Size {
    /// 1,048,576 of them are the most.
    Bytes,
    /// 65,536 are the most.
    Lines,
    /// Commands behind `live`, of which 4,096 are the most.
    LiveCommands,
}

/// What is wrong or odd in a script whose lines have no fault. Lines count from 1.
#[derive(Drop)]
pub enum Finding {
    /// The script has more of these than one may have.
    TooLarge { size: Size },
    /// A command before `live` that is refused.
    Refused { line: u32, fault: ApplyFault },
    /// A rule with `me`, where no `local` gives the host an address.
    MeWithoutLocal { line: u32 },
    /// A rule that no packet meets, and the line of the rule before it that takes them all.
    Beaten { line: u32, number: u16, taker: u32 },
    /// A rule that asks for an interface of which no capture is.
    NoSuchInterface { line: u32, name: Name },
    /// A table that no rule names.
    UnusedTable { line: u32, name: Name },
    /// A set that is disabled before the first packet, and how many rules it has then.
    DisabledSet { set: u8, rules: u64 },
}

/// The lines of the script with a command, before `live` and behind it.
fn lines_of<'a>(alloc: Global, script: &'a Script) -> Result<Vec<&'a Line>, OutOfMemory> {
    let mut lines = Vec::new(alloc);
    for line in script.before.as_slice() {
        lines.push(line)?;
    }
    for step in script.live.as_slice() {
        if let Step::Run(line) = step {
            lines.push(line)?;
        }
    }
    Ok(lines)
}

/// The rule that a line adds, if it adds one.
fn rule_of(line: &Line) -> Option<&RuleDraft> {
    match &line.command {
        Command::Add(draft) => Some(draft),
        _ => None,
    }
}

/// Whether a line gives the host an address.
fn is_local(line: &Line) -> bool {
    match &line.command {
        Command::Local(_) => true,
        _ => false,
    }
}

/// The rules with `me`, where no line gives the host an address.
fn find_me(findings: &mut Vec<Finding>, lines: &[&Line]) -> Result<(), OutOfMemory> {
    for line in lines {
        if is_local(line) {
            return Ok(());
        }
    }
    for line in lines {
        if let Some(draft) = rule_of(line) {
            if asks_for_me(draft) {
                findings.push(Finding::MeWithoutLocal { line: line.line })?;
            }
        }
    }
    Ok(())
}

/// Whether a capture is of an interface that is asked for.
fn is_there(iface: &Iface, interfaces: &[&[u8]]) -> bool {
    interfaces.iter().any(|name| is_asked_for(iface, name))
}

/// The interfaces that a rule asks for, and of which no capture is.
fn find_interfaces(
    findings: &mut Vec<Finding>,
    line: &Line,
    interfaces: &[&[u8]],
) -> Result<(), OutOfMemory> {
    let Some(draft) = rule_of(line) else {
        return Ok(());
    };
    let Some(body) = &draft.body else {
        return Ok(());
    };
    for option in body.options.as_slice() {
        let Some(iface) = interface_of(option) else {
            continue;
        };
        if is_there(iface, interfaces) {
            continue;
        }
        if let Iface::Exact(name) | Iface::Begins(name) = iface {
            let name = name.clone()?;
            let line = line.line;
            findings.push(Finding::NoSuchInterface { line, name })?;
        }
    }
    Ok(())
}

/// The table that a line makes or fills, if it does.
fn table_of(line: &Line) -> Option<&Name> {
    match &line.command {
        Command::Table(name, TableCommand::Create(_) | TableCommand::Add(_, _)) => Some(name),
        _ => None,
    }
}

/// Whether a line before this place makes or fills the table.
fn is_told(lines: &[&Line], place: usize, table: &Name) -> bool {
    for line in lines.iter().take(place) {
        if let Some(name) = table_of(line) {
            if name == table {
                return true;
            }
        }
    }
    false
}

/// Whether a rule names the table.
fn is_used(lines: &[&Line], table: &Name) -> bool {
    for line in lines {
        if let Some(draft) = rule_of(line) {
            if asks_table(draft, table) {
                return true;
            }
        }
    }
    false
}

/// The tables that no rule names.
fn find_tables(findings: &mut Vec<Finding>, lines: &[&Line]) -> Result<(), OutOfMemory> {
    for (place, line) in lines.iter().enumerate() {
        let Some(table) = table_of(line) else {
            continue;
        };
        if is_told(lines, place, table) || is_used(lines, table) {
            continue;
        }
        let name = table.clone()?;
        let line = line.line;
        findings.push(Finding::UnusedTable { line, name })?;
    }
    Ok(())
}

/// What a command before `live` gives, and whether it was accepted; a refusal is told.
fn configured(
    alloc: Global,
    findings: &mut Vec<Finding>,
    config: Config,
    line: &Line,
) -> Result<(Config, bool), OutOfMemory>
    requires { IsLine line.now }
{
    if !is_changing(&line.command) {
        return Ok((config, false));
    }
    match apply(alloc, &config, &line.command) {
        Ok(after) => Ok((after, true)),
        Err(ApplyFault::OutOfMemory) => Err(OutOfMemory),
        Err(fault) => {
            let line = line.line;
            findings.push(Finding::Refused { line, fault })?;
            Ok((config, false))
        }
    }
}

/// What the commands before `live` give, and the lines of the rules that were added, in the order
/// of their identities.
fn configure(
    alloc: Global,
    findings: &mut Vec<Finding>,
    lines: &[Line],
) -> Result<(Config, Vec<u32>), OutOfMemory>
    requires { AllByRecursion IsLine lines.now }
{
    let mut config = Config::new(alloc)?;
    let mut added = Vec::new(alloc);
    for line in lines {
        let (after, is_accepted) = configured(alloc, findings, config, line)?;
        config = after;
        if is_accepted && rule_of(line).is_some() {
            added.push(line.line)?;
        }
    }
    Ok((config, added))
}

/// The line that added the rule of this identity.
fn line_of(added: &[u32], id: u32) -> u32 {
    let place = (id as usize).saturating_sub(1);
    added.get(place).copied().unwrap_or(0)
}

/// The rules behind one that takes each packet.
fn find_beaten(
    findings: &mut Vec<Finding>,
    config: &Config,
    added: &[u32],
) -> Result<(), OutOfMemory> {
    let rules = config.rules();
    let Some(taker) = first_taker(rules, config.disabled()) else {
        return Ok(());
    };
    let taking = match rules.get(taker) {
        Some(rule) => line_of(added, rule.id),
        None => 0,
    };
    for rule in rules.iter().skip(taker.saturating_add(1)) {
        if is_beaten(rule, config.disabled()) {
            findings.push(Finding::Beaten {
                line: line_of(added, rule.id),
                number: rule.number,
                taker: taking,
            })?;
        }
    }
    Ok(())
}

/// How many rules a set has.
fn rules_of(rules: &[Arc<Rule>], set: u8) -> u64 {
    let mut count: u64 = 0;
    for rule in rules {
        if rule.set == set {
            count = count.saturating_add(1);
        }
    }
    count
}

/// The disabled sets.
fn find_disabled(findings: &mut Vec<Finding>, config: &Config) -> Result<(), OutOfMemory> {
    for set in 0..32u8 {
        if config.disabled() >> u32::from(set) & 1 == 1 {
            let rules = rules_of(config.rules(), set);
            findings.push(Finding::DisabledSet { set, rules })?;
        }
    }
    Ok(())
}

/// The listings before `live` of a table that isn't there, which are refused.
fn find_listings(
    findings: &mut Vec<Finding>,
    config: &Config,
    lines: &[Line],
) -> Result<(), OutOfMemory> {
    for line in lines {
        if let Command::Table(name, TableCommand::ListEntries) = &line.command {
            if config.table(name).is_none() {
                findings.push(Finding::Refused {
                    line: line.line,
                    fault: ApplyFault::NoSuchTable,
                })?;
            }
        }
    }
    Ok(())
}

/// What the script has too many of, if that is why it isn't read.
fn find_size(findings: &mut Vec<Finding>, fault: ScriptFault) -> Result<(), OutOfMemory> {
    let size = match fault {
        ScriptFault::TooLong => Size::Bytes,
        ScriptFault::TooManyLines => Size::Lines,
        ScriptFault::TooManyLive => Size::LiveCommands,
        ScriptFault::Parse { .. } | ScriptFault::PaceInLive { .. } | ScriptFault::OutOfMemory => {
            return Ok(());
        }
    };
    findings.push(Finding::TooLarge { size })?;
    Ok(())
}

/// What is odd in these lines and the rules that those before `live` give, in the order in which it is told.
/// Interfaces are looked for where some are given.
fn find_odd(
    findings: &mut Vec<Finding>,
    lines: &[&Line],
    before: &[Line],
    (config, added): (&Config, &[u32]),
    interfaces: &[&[u8]],
) -> Result<(), OutOfMemory> {
    find_listings(findings, config, before)?;
    find_me(findings, lines)?;
    find_beaten(findings, config, added)?;
    if !interfaces.is_empty() {
        for line in lines {
            find_interfaces(findings, line, interfaces)?;
        }
    }
    find_tables(findings, lines)?;
    find_disabled(findings, config)
}

/// What is refused or odd in a script without a fault.
fn find_in_script(
    alloc: Global,
    findings: &mut Vec<Finding>,
    script: &Script,
    interfaces: &[&[u8]],
) -> Result<(), OutOfMemory>
    requires { AllByRecursion IsLine script.now.before }
{
    let lines = lines_of(alloc, script)?;
    let before = script.before.as_slice();
    let (config, added) = configure(alloc, findings, before)?;
    find_odd(findings, &lines, before, (&config, &added), interfaces)
}

/// What is wrong or odd in a script as a whole: that it is too large; or else, where no line has a fault, what is
/// refused and what is odd. Interfaces are looked for where some are given.
pub fn findings_in(
    alloc: Global,
    text: &[u8],
    interfaces: &[&[u8]],
) -> Result<Vec<Finding>, OutOfMemory> {
    let mut findings = Vec::new(alloc);
    match parse_script(alloc, text, Pace::Serial) {
        Ok(script) => find_in_script(alloc, &mut findings, &script, interfaces)?,
        Err(ScriptFault::OutOfMemory) => return Err(OutOfMemory),
        Err(fault) => find_size(&mut findings, fault)?,
    }
    Ok(findings)
}

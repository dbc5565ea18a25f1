ghost use Rattle.std.specs.Prelude.{◌≡◌, ◌++◌, [], IfOk, IfErr, OnOk, length};
ghost use Rattle.std.specs.List.{AllByRecursion};
ghost use Rattle.fw_command.specs.WellFormed.{IsLine, IsScript, IsStepInRange};
ghost use Rattle.fw_command.specs.Scripts.{script_of};
ghost use Rattle.rule_chain.specs.First.{first_configuration};
ghost use Rattle.capture_tracks.specs.Commands as commands;
ghost use Rattle.replay_setup.specs.FirstEdition as spec;
ghost use Rattle.replay_setup.specs.FirstEdition.{GivesView};

use crate::{RefusedLine, ScriptError};
use capture_tracks::{answer_listing, listing_of};
use fw_command::{Line, Pace, Script, ScriptFault, Step, parse_script};
use fw_rule::Items;
use report_texts::{Answer, LineAnswer};
use rule_chain::Config;
use rule_edits::{ApplyFault, apply_owned, is_changing};
use std::alloc::Global;

/// What a script gives before a packet is read.
#[derive(Drop)]
pub struct FirstEdition {
    /// What the commands before `live` make.
    pub config: Config,
    /// The answers to the listings before `live`, in the order of their lines.
    pub answers: Items<LineAnswer>,
    /// What stands behind `live`.
    pub live: Items<Step>,
}

/// The configuration behind a command on this line.
fn apply_line(alloc: Global, config: Config, line: &Line) -> Result<Config, ScriptError>
    requires { IsLine line.now }
    ensures { GivesView (λ c. c) result (spec.configured_line config line.now) }
{
    if !is_changing(&line.command) {
        return Ok(config);
    }
    match apply_owned(alloc, config, &line.command) {
        Ok(next) => Ok(next),
        Err(ApplyFault::OutOfMemory) => Err(ScriptError::OutOfMemory),
        Err(fault) => Err(ScriptError::Refused(RefusedLine {
            line: line.line,
            fault,
        })),
    }
}

/// The configuration behind the commands of these lines.
fn configure(alloc: Global, lines: &[Line]) -> Result<Config, ScriptError>
    requires { AllByRecursion IsLine lines.now }
    ensures { GivesView (λ c. c) result (spec.configuration_behind first_configuration lines.now) }
{
    let mut config = Config::new(alloc)?;
    for line in lines {
        config = apply_line(alloc, config, line)?;
    }
    Ok(config)
}

/// What the answer to this line comes to: one that is refused is the script's error.
fn answered_line(line: u32, answer: Answer) -> Result<Option<LineAnswer>, ScriptError>
    ensures { GivesView (λ a. a) result (spec.answered_line line answer) }
{
    match answer {
        Answer::Refused(fault) => Err(ScriptError::Refused(RefusedLine { line, fault })),
        Answer::Listed { .. } => Ok(Some(LineAnswer { line, answer })),
    }
}

/// The answer to a command on this line, if it is a listing.
fn list_line(config: &Config, line: &Line) -> Result<Option<LineAnswer>, ScriptError>
    ensures { GivesView (λ a. a) result
        (spec.listed_first config.now line.now.line (commands.listing_of line.now.command)) }
{
    match listing_of(&line.command) {
        Some(listing) => answered_line(line.line, answer_listing(config, 1, listing)?),
        None => Ok(None),
    }
}

/// Adds an answer, if there is one.
fn add_answer(answers: &mut Vec<LineAnswer>, answer: Option<LineAnswer>) -> Result<(), ScriptError>
    ensures ok { OnOk result (answers.new.items ≡ answers.old.items ++ spec.with_answer answer []) }
    ensures err { IfErr result (λ error. error ≡ ScriptError.OutOfMemory) }
{
    if let Some(answer) = answer {
        answers.push(answer)?;
    }
    Ok(())
}

/// The answers to the listings among these lines.
fn answer_listings(
    alloc: Global,
    config: &Config,
    lines: &[Line],
) -> Result<Vec<LineAnswer>, ScriptError>
    ensures { GivesView (λ answers. answers.items) result (spec.listings_of config.now lines.now) }
{
    let mut answers = Vec::new(alloc);
    for line in lines {
        add_answer(&mut answers, list_line(config, line)?)?;
    }
    Ok(answers)
}

/// The commands of a script of that pace.
fn read_lines(alloc: Global, pace: Pace, bytes: &[u8]) -> Result<Script, ScriptError>
    ensures exact { GivesView (λ s. s) result (spec.read_script (script_of pace bytes.now)) }
    ensures well_formed { IfOk result IsScript }
{
    match parse_script(alloc, bytes, pace) {
        Ok(script) => Ok(script),
        Err(ScriptFault::OutOfMemory) => Err(ScriptError::OutOfMemory),
        Err(fault) => Err(ScriptError::Fault(fault)),
    }
}

/// What a script of that pace gives before a packet is read, or why there is no edition 1.
pub fn read_first_edition(
    alloc: Global,
    pace: Pace,
    bytes: &[u8],
) -> Result<FirstEdition, ScriptError>
    ensures exact { GivesView (λ e. e) result (spec.first_edition pace bytes.now) }
    ensures well_formed { IfOk result (λ edition. AllByRecursion IsStepInRange edition.live) }
{
    let Script { before, live, .. } = read_lines(alloc, pace, bytes)?;
    let lines = before.as_slice();
    let config = configure(alloc, lines)?;
    let answers = answer_listings(alloc, &config, lines)?;
    Ok(FirstEdition {
        config,
        answers: Items::from_vec(answers),
        live,
    })
}

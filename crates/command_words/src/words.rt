ghost use Rattle.std.specs.Prelude.{◌≡◌, ◌≤◌, IfOk, IfSome, map, string_bytes};
ghost use Rattle.std.specs.Option.{option_map};
ghost use Rattle.command_words.specs.Invocation.{IsWithinLimits, arguments_named, command_named, word_texts};
ghost use Rattle.command_words.specs.Words as spec;

use crate::arguments::{Arguments, arguments_in};
use crate::captures::captures_of;
use crate::invocation::{Invocation, Mode};
use crate::load_word::load_number;
use fw_base::{MOST_CAPTURES, OutOfMemory};
use std::alloc::Global;

/// What the positional words of a replay name.
#[tactic(auto, unfolding(crate::specs::Words::replay_of))]
fn replay_of<'a>(
    alloc: Global,
    mode: Mode,
    journal: bool,
    cache: Option<u32>,
    positional: &[&'a str],
) -> Result<Option<Invocation<'a>>, OutOfMemory>
    requires { IfSome cache (λ n. (1 ≤ n) × (n ≤ 65536)) }
    ensures named { IfOk result (λ found.
        option_map command_named found ≡ spec.replay_of mode journal cache (word_texts positional.now)) }
    ensures within { IfOk result (λ found. IfSome found IsWithinLimits) }
{
    let [script, captures @ ..] = positional else {
        return Ok(None);
    };
    if script.is_empty() || captures.is_empty() || captures.len() > MOST_CAPTURES as usize {
        return Ok(None);
    }
    match captures_of(alloc, captures)? {
        Some(captures) => Ok(Some(Invocation::Replay {
            mode,
            journal,
            cache,
            script: script.as_bytes(),
            captures,
        })),
        None => Ok(None),
    }
}

/// What the positional words of a load name.
#[tactic(auto, unfolding(crate::specs::Words::load_of))]
fn load_of<'a>(positional: &[&'a str]) -> Option<Invocation<'a>>
    ensures named { option_map command_named result ≡ spec.load_of (word_texts positional.now) }
    ensures within { IfSome result IsWithinLimits }
{
    match positional {
        [number] => match load_number(number) {
            Some(records) => Some(Invocation::Load(records)),
            None => None,
        },
        _ => None,
    }
}

/// What the positional words of an audit name.
#[tactic(auto, unfolding(crate::specs::Words::audit_of))]
fn audit_of<'a>(
    alloc: Global,
    positional: &[&'a str],
) -> Result<Option<Invocation<'a>>, OutOfMemory>
    ensures named { IfOk result (λ found.
        option_map command_named found ≡ spec.audit_of (word_texts positional.now)) }
    ensures within { IfOk result (λ found. IfSome found IsWithinLimits) }
{
    let [report, script, captures @ ..] = positional else {
        return Ok(None);
    };
    if report.is_empty() || script.is_empty() {
        return Ok(None);
    }
    if captures.is_empty() || captures.len() > MOST_CAPTURES as usize {
        return Ok(None);
    }
    match captures_of(alloc, captures)? {
        Some(captures) => Ok(Some(Invocation::Audit {
            report: report.as_bytes(),
            script: script.as_bytes(),
            captures,
        })),
        None => Ok(None),
    }
}

/// What the words behind the first name.
#[tactic(auto, unfolding(crate::specs::Words::command_by))]
fn command_by<'a>(
    alloc: Global,
    mode: &[u8],
    arguments: &Arguments<'a>,
) -> Result<Option<Invocation<'a>>, OutOfMemory>
    requires { IfSome arguments.now.cache (λ n. (1 ≤ n) × (n ≤ 65536)) }
    ensures named { IfOk result (λ found.
        option_map command_named found ≡ spec.command_by mode.now (arguments_named arguments.now)) }
    ensures within { IfOk result (λ found. IfSome found IsWithinLimits) }
{
    let positional = &arguments.positional;
    let journal = arguments.journal;
    let cache = arguments.cache;
    if mode == b"serial".as_slice() {
        replay_of(alloc, Mode::Serial, journal, cache, positional)
    } else if mode == b"live".as_slice() {
        replay_of(alloc, Mode::Live, journal, cache, positional)
    } else if mode == b"load".as_slice() && !(journal || cache.is_some()) {
        Ok(load_of(positional))
    } else if mode == b"audit".as_slice() && !(journal || cache.is_some()) {
        audit_of(alloc, positional)
    } else {
        Ok(None)
    }
}

/// What the words name, where they are a command; `None` exactly where they are none. It fails only for
/// want of memory.
///
/// The commands are `serial|live [--journal] [--cache N] [--] SCRIPT in|out:IF:NAME ..` with 1 to 16 captures and N
/// from 1 to 65,536, `load [--] N` with N from 1 to 1,000,000, and
/// `audit [--] REPORT SCRIPT in|out:IF:NAME ..` with 1 to 16 captures. IF is the name of an interface, NAME that of a
/// capture's file.
#[tactic(auto, unfolding(crate::specs::Words::command_of))]
pub fn read_words(alloc: Global, words: &[String]) -> Result<Option<Invocation<'_>>, OutOfMemory>
    ensures named { IfOk result (λ found.
        option_map command_named found ≡ spec.command_of (map string_bytes words.now)) }
    ensures within { IfOk result (λ found. IfSome found IsWithinLimits) }
{
    let Some(mode) = words.first() else {
        return Ok(None);
    };
    match arguments_in(alloc, words)? {
        Some(arguments) => command_by(alloc, mode.as_bytes(), &arguments),
        None => Ok(None),
    }
}

ghost use Rattle.std.specs.Prelude.{◌≡◌, ◌≤◌, [], IfOk, IfSome, codes, drop, map, string_bytes, unwrap_or};
ghost use Rattle.std.specs.Option.{option_map};
ghost use Rattle.clap.specs.Matches.{found_of};
ghost use Rattle.clap.specs.Simple.{app_of};
ghost use Rattle.clap.specs.Walk.{all_of, rows_of};
ghost use Rattle.command_words.specs.CommandLine.{command_app};
ghost use Rattle.command_words.specs.Invocation.{arguments_named, word_texts};
ghost use Rattle.command_words.specs.Words as spec;

use crate::cache_word::cache_number;
use clap::error::ErrorKind;
use clap::{Arg, ArgAction, ArgMatches, Command};
use fw_base::OutOfMemory;
use std::alloc::{AllocError, Global};

/// The words behind the first.
#[derive(Drop)]
pub(crate) struct Arguments<'a> {
    /// Whether `--journal` is among them.
    pub(crate) journal: bool,
    /// The number of `--cache`, if it is among them.
    pub(crate) cache: Option<u32>,
    /// The others, without the first `--`.
    pub(crate) positional: Vec<&'a str>,
}

/// The command line of each mode: positional words, `--journal` and `--cache N`.
fn command_line<'a>(alloc: Global) -> Result<Command<'a>, AllocError>
    ensures { IfOk result (λ command. app_of command ≡ command_app) }
{
    let journal = Arg::new(alloc, "journal")
        .long("journal")
        .action(ArgAction::SetTrue);
    let cache = Arg::new(alloc, "cache")
        .long("cache")
        .action(ArgAction::Append)
        .num_args(..=1)
        .default_missing_value("");
    let positional = Arg::new(alloc, "positional").num_args(0..);
    Command::new(alloc, "ipfw_replay")
        .disable_help_flag(true)
        .arg(journal)?
        .arg(cache)?
        .arg(positional)
}

/// The number of `--cache`, if there is one: `None` where its values aren't one number.
fn cache_in(matches: &ArgMatches<'_>) -> Option<Option<u32>>
    ensures value { result ≡ spec.cache_of
        (unwrap_or (all_of (codes "cache") (rows_of (found_of matches.now))) []) }
    ensures within { IfSome result (λ cache. IfSome cache (λ n. (1 ≤ n) × (n ≤ 65536))) }
{
    match matches.get_strs("cache") {
        None => Some(None),
        Some(values) => number_in(values),
    }
}

/// The number in the values of `--cache`.
#[tactic(auto, unfolding(crate::specs::Words::cache_of))]
fn number_in(values: &[&str]) -> Option<Option<u32>>
    ensures value { result ≡ spec.cache_of (word_texts values.now) }
    ensures within { IfSome result (λ cache. IfSome cache (λ n. (1 ≤ n) × (n ≤ 65536))) }
{
    match values {
        [] => Some(None),
        [value] => match cache_number(value) {
            Some(number) => Some(Some(number)),
            None => None,
        },
        _ => None,
    }
}

/// The positional words that the library found.
fn positional_in<'a>(alloc: Global, matches: &ArgMatches<'a>) -> Result<Vec<&'a str>, OutOfMemory>
    ensures { IfOk result (λ words. word_texts words.items
        ≡ unwrap_or (all_of (codes "positional") (rows_of (found_of matches.now))) []) }
{
    match matches.get_strs("positional") {
        Some(positional) => Ok(Vec::from_slice(alloc, positional)?),
        None => Ok(Vec::new(alloc)),
    }
}

/// The words behind the first; `None` where an option other than one `--journal` and one `--cache` with its number
/// stands among them.
pub(crate) fn arguments_in<'a>(
    alloc: Global,
    words: &'a [String],
) -> Result<Option<Arguments<'a>>, OutOfMemory>
    ensures named { IfOk result (λ found. option_map arguments_named found
        ≡ spec.arguments_of (drop 1 (map string_bytes words.now))) }
    ensures within { IfOk result (λ found. IfSome found (λ arguments.
        IfSome arguments.cache (λ n. (1 ≤ n) × (n ≤ 65536)))) }
{
    let matches = match command_line(alloc)?.try_get_matches_from(words) {
        Ok(matches) => matches,
        Err(error) => match error.kind() {
            ErrorKind::OutOfMemory => return Err(OutOfMemory),
            _ => return Ok(None),
        },
    };
    let Some(cache) = cache_in(&matches) else {
        return Ok(None);
    };
    Ok(Some(Arguments {
        journal: matches.get_flag("journal"),
        cache,
        positional: positional_in(alloc, &matches)?,
    }))
}

ghost use Rattle.std.specs.Prelude.{◌≡◌, ◌≤◌, false, length};
ghost use Rattle.ipfw_parser.specs.Reading.{ReadsAs};
ghost use Rattle.ipfw_parser.specs.Views.{list_of};
ghost use Rattle.ipfw_parser.specs.Options as spec;
ghost use Rattle.ipfw_parser.specs.PlacedViews.{placed_view};

use crate::options::{is_state, option, state};
use crate::{Kind, ParseFault, Words};
use fw_rule::{Items, Opt, StateOpt};
use std::alloc::Global;

/// Options, and the state with its place among them.
#[derive(Drop)]
pub(crate) struct PlacedOptions {
    pub options: Items<Opt>,
    pub state: Option<StateOpt>,
    pub state_at: usize,
}

/// The options and the state up to the line's end.
pub(crate) fn options(
    alloc: Global,
    end: u32,
    words: Words<'_>,
) -> Result<PlacedOptions, ParseFault>
    ensures { ReadsAs placed_view result
        (spec.options (length (list_of words.entry)) end false (list_of words.entry)) }
{
    let mut found = Vec::new(alloc);
    let mut made: Option<StateOpt> = None;
    let mut state_at = 0;
    let mut rest = words;
    for step in 0..words.tokens.len() {
        let Some((word, behind)) = rest.next() else {
            return Ok(placed(found, made, state_at));
        };
        if !is_state(word) {
            let (one, behind) = option(alloc, end, word, behind)?;
            found.push(one)?;
            rest = behind;
            continue;
        }
        if made.is_some() {
            return Err(word.fault(Kind::SecondState));
        }
        let (one, behind) = state(alloc, end, word, behind)?;
        made = Some(one);
        state_at = found.len();
        rest = behind;
    }
    Ok(placed(found, made, state_at))
}

fn placed(options: Vec<Opt>, state: Option<StateOpt>, state_at: usize) -> PlacedOptions
    ensures { placed_view result ≡ record {
      options = options.items;
      state = state;
      state_at = state_at;
    } }
{
    PlacedOptions {
        options: Items::from_vec(options),
        state,
        state_at,
    }
}

ghost use Rattle.std.specs.Prelude.{◌≡◌, IfOk, IfSome, length, map};
ghost use Rattle.std.specs.Option.{option_map};
ghost use Rattle.command_words.specs.Invocation.{capture_names, word_texts};
ghost use Rattle.command_words.specs.Words as spec;

use crate::capture_word::{CaptureWord, capture_of};
use fw_base::OutOfMemory;
use std::alloc::Global;

/// What the words of captures name; `None` where one of them names no capture.
pub(crate) fn captures_of<'a>(
    alloc: Global,
    words: &[&'a str],
) -> Result<Option<Vec<CaptureWord<'a>>>, OutOfMemory>
    ensures named { IfOk result (λ found.
        option_map (λ captures. map capture_names captures.items) found
        ≡ spec.captures_of (word_texts words.now)) }
    ensures count { IfOk result (λ found. IfSome found (λ captures.
        length captures.items ≡ length words.now)) }
{
    let mut captures = Vec::with_capacity(alloc, words.len())?;
    for word in words {
        match capture_of(word.as_bytes()) {
            Some(capture) => captures.push(capture)?,
            None => return Ok(None),
        }
    }
    Ok(Some(captures))
}

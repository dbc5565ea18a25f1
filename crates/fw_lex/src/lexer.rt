ghost use Rattle.std.specs.Prelude.{◌≡◌, ◌==◌, ◌+◌, ◌-◌, ◌*◌, ◌<◌, ◌≤◌, ◌^◌, length, IfOk, IfSome, IfNone, IsOkUnless, Err, slice_index, position};
ghost use Rattle.fw_lex.specs.Words as words;
ghost use Rattle.fw_lex.specs.Words.{first_bad, tokens_in, tokens_of, AreLongestRuns};

use crate::{LexFault, Token};
use fw_base::OutOfMemory;
use std::alloc::Global;

fn comment_start(line: &[u8]) -> Option<usize>
    ensures found { result ≡ position (λ byte. byte == 35) line.now }
    ensures within { IfSome result (λ at. at < length line.now) }
{
    line.iter().position(|byte| *byte == b'#')
}

/// The part of a line before the first `#`, the whole line where there is none.
#[tactic(auto, unfolding(crate::specs::Words::before_comment))]
pub fn before_comment(line: &[u8]) -> &[u8]
    ensures part { result.now ≡ words.before_comment line.now }
    ensures within { length result.now ≤ length line.now }
{
    match comment_start(line) {
        Some(start) => &line[..start],
        None => line,
    }
}

/// Whether a byte parts words: space, tab or carriage return.
pub fn is_blank(byte: u8) -> bool
    ensures { result ≡ words.is_blank byte }
{
    byte == b' ' || byte == b'\t' || byte == b'\r'
}

fn is_readable(byte: u8) -> bool
    ensures { result ≡ words.is_readable byte }
{
    (32 <= byte && byte <= 126) || byte == b'\t' || byte == b'\r'
}

#[tactic(auto, unfolding(crate::specs::Words::first_bad))]
fn first_unreadable(part: &[u8]) -> Option<usize>
    ensures found { result ≡ first_bad part.now }
    ensures within { IfSome result (λ at. at < length part.now) }
{
    part.iter().position(|byte| !is_readable(*byte))
}

#[tactic(auto, unfolding(crate::specs::Words::tokens_in))]
fn words(alloc: Global, part: &[u8]) -> Result<Vec<Token>, OutOfMemory>
    requires { length part.now ≤ 1048576 }
    ensures { IfOk result (λ tokens. tokens.items ≡ tokens_in part.now) }
{
    let mut found = Vec::new(alloc);
    let mut begun: Option<u32> = None;
    for (at, byte) in part.iter().enumerate() {
        let at = at as u32;
        match begun {
            Some(start) if is_blank(*byte) => {
                found.push(Token { start, end: at })?;
                begun = None;
            }
            None if !is_blank(*byte) => begun = Some(at),
            _ => {}
        }
    }
    if let Some(start) = begun {
        found.push(Token {
            start,
            end: part.len() as u32,
        })?;
    }
    Ok(found)
}

/// The words of a line of at most 1,048,576 bytes, or the first byte before its comment that may not
/// stand there.
#[tactic(auto, unfolding(crate::specs::Words::tokens_of))]
pub fn tokens(alloc: Global, line: &[u8]) -> Result<Vec<Token>, LexFault>
    requires { length line.now ≤ 1048576 }

    // The longest runs of bytes that aren't blank, before the comment, in order.
    ensures longest { IfOk result (λ tokens.
        AreLongestRuns (words.before_comment line.now) tokens.items) }

    // The same by a scan, as a function.
    ensures words { IfOk result (λ tokens. tokens.items ≡ tokens_of line.now) }

    // The first byte that may not stand, exactly where there is one.
    ensures bad { IfSome (first_bad (words.before_comment line.now)) (λ at. result
        ≡ Err (LexFault.BadByte (at + 1) (slice_index (words.before_comment line.now) at))) }
    ensures good { IfNone (first_bad (words.before_comment line.now))
        (IsOkUnless result LexFault.OutOfMemory) }
{
    let part = before_comment(line);
    match first_unreadable(part) {
        Some(at) => Err(LexFault::BadByte {
            column: at as u32 + 1,
            byte: part[at],
        }),
        None => match words(alloc, part) {
            Ok(found) => Ok(found),
            Err(OutOfMemory) => Err(LexFault::OutOfMemory),
        },
    }
}

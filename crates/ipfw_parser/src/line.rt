ghost use Rattle.std.specs.Prelude.{◌≡◌, ◌≤◌, ◌^◌, ◌<◌, length, drop, map, IfOk};
ghost use Rattle.fw_rule.specs.WellFormed.{IsDraft};
ghost use Rattle.fw_lex.specs.Words as lex;
ghost use Rattle.ipfw_parser.specs.Reading.{ReadsAs, word_at};
ghost use Rattle.ipfw_parser.specs.Views.{list_of};
ghost use Rattle.ipfw_parser.specs.Rules.{rule_in, end_column};

use crate::rules::rule;
use crate::{ParseFault, Words};
use fw_lex::{Token, before_comment};
use fw_rule::RuleDraft;
use std::alloc::Global;

/// The words of a line, whose tokens these are.
pub fn words_of<'a>(line: &'a [u8], tokens: &'a [Token]) -> Words<'a>
    requires short { length line.now ≤ 1048576 }
    requires tokens { tokens.now ≡ lex.tokens_of line.now }
    ensures line { result.line.now ≡ line.entry.now }
    ensures tokens { result.tokens.now ≡ tokens.entry.now }
{
    Words { line, tokens }
}

/// The words of a line behind the first ones.
pub fn skip(words: Words<'_>, count: usize) -> Words<'_>
    requires { count ≤ length words.tokens.now }
    ensures { list_of result ≡ drop count (list_of words.entry) }
{
    Words {
        line: words.line,
        tokens: &words.tokens[count..],
    }
}

/// The column one past the line's last word, or past the part before the comment where there is none.
#[tactic(auto, unfolding(crate::specs::Rules::end_column))]
pub fn line_end(words: Words<'_>) -> u32
    ensures { result ≡ end_column (length (lex.before_comment words.entry.line.now))
        words.entry.tokens.now }
{
    match words.tokens.last() {
        Some(token) => token.end + 1,
        None => before_comment(words.line).len() as u32 + 1,
    }
}

/// Reads the words of a rule, those of the line behind the first `first`: a draft, or the first fault
/// from left to right. `tokens` are the line's words, and `first` is at most their number.
#[tactic(auto, unfolding(crate::specs::Rules::rule_in))]
pub fn parse_rule(
    alloc: Global,
    line: &[u8],
    tokens: &[Token],
    first: usize,
) -> Result<RuleDraft, ParseFault>
    requires short { length line.now ≤ 1048576 }
    requires tokens { tokens.now ≡ lex.tokens_of line.now }
    requires first { first ≤ length tokens.now }

    // Exactly the grammar's draft or its first fault, unless memory runs out.
    ensures exact { ReadsAs (λ draft. draft) result (rule_in line.now tokens.now first) }
    ensures well_formed { IfOk result IsDraft }
{
    parse_words(alloc, words_of(line, tokens), first)
}

#[tactic(auto, unfolding(crate::specs::Rules::rule_in))]
fn parse_words(alloc: Global, words: Words<'_>, first: usize) -> Result<RuleDraft, ParseFault>
    requires { first ≤ length words.tokens.now }
    ensures { ReadsAs (λ draft. draft) result
        (rule_in words.entry.line.now words.entry.tokens.now first) }
{
    rule(alloc, line_end(words), skip(words, first))
}

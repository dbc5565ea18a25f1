ghost use Rattle.std.specs.Prelude.{◌≡◌, ◌≤◌, IfSome};
ghost use Rattle.command_words.specs.Words as spec;

use crate::bytes::are_digits;
use fw_base::MOST_VERDICTS;

/// How many digits the number of `--cache` has at most.
const MOST_DIGITS: usize = 5;

/// How many verdicts a cache may hold, as `--cache` says it.
#[tactic(auto, unfolding(crate::specs::Words::cache_number))]
pub(crate) fn cache_number(word: &str) -> Option<u32>
    ensures value { result ≡ spec.cache_number word.now }
    ensures within { IfSome result (λ n. (1 ≤ n) × (n ≤ 65536)) }
{
    if word.is_empty() || word.len() > MOST_DIGITS || !are_digits(word.as_bytes()) {
        return None;
    }
    match word.parse::<u32>() {
        Ok(verdicts) if 1 <= verdicts && verdicts <= MOST_VERDICTS => Some(verdicts),
        _ => None,
    }
}

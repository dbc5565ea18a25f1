ghost use Rattle.std.specs.Prelude.{◌≡◌, ◌≤◌, IfSome};
ghost use Rattle.command_words.specs.Words as spec;

use crate::bytes::are_digits;
use fw_base::MOST_LOAD_RECORDS;

/// How many digits a load's number has at most.
const MOST_DIGITS: usize = 7;

/// A load's number of records.
#[tactic(auto, unfolding(crate::specs::Words::load_number))]
pub(crate) fn load_number(word: &str) -> Option<u32>
    ensures value { result ≡ spec.load_number word.now }
    ensures within { IfSome result (λ n. (1 ≤ n) × (n ≤ 1000000)) }
{
    if word.is_empty() || word.len() > MOST_DIGITS || !are_digits(word.as_bytes()) {
        return None;
    }
    match word.parse::<u32>() {
        Ok(records) if 1 <= records && records <= MOST_LOAD_RECORDS => Some(records),
        _ => None,
    }
}

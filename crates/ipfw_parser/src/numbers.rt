ghost use Rattle.std.specs.Prelude.{◌≡◌, ◌<◌, ◌≤◌, ◌^◌, length, IfOk, IfSome};
ghost use Rattle.ipfw_parser.specs.Reading.{ReadsAs, NeedsNoMemory};
ghost use Rattle.ipfw_parser.specs.Views.{view};
ghost use Rattle.ipfw_parser.specs.Numbers as numbers;

use crate::{Kind, ParseFault, Word};

/// How many digits a number has at most.
pub(crate) const MOST_DIGITS: usize = 10;

/// The number that the digits write, where there are only digits.
fn digits_value(text: &[u8]) -> Option<u64>
    requires { length text.now ≤ 10 }
    ensures { result ≡ numbers.digits_value text.now }
{
    let mut value: u64 = 0;
    for byte in text {
        if !byte.is_ascii_digit() {
            return None;
        }
        value = 10 * value + u64::from(*byte - b'0');
    }
    Some(value)
}

/// The number of one to so many digits.
#[tactic(auto, unfolding(crate::specs::Numbers::decimal))]
pub(crate) fn decimal(text: &[u8], most: usize) -> Option<u64>
    requires { most ≤ 10 }
    ensures { result ≡ numbers.decimal most text.now }
{
    if 1 <= text.len() && text.len() <= most {
        digits_value(text)
    } else {
        None
    }
}

/// The number where it is at most so great.
pub(crate) fn up_to(value: Option<u64>, most: u64) -> Option<u64>
    ensures value { result ≡ numbers.up_to most value }
    ensures within { IfSome result (λ n. n ≤ most) }
{
    match value {
        Some(value) if value <= most => Some(value),
        _ => None,
    }
}

/// A number of one to ten digits, from `least` to `most`.
#[tactic(auto, unfolding(crate::specs::Numbers::number))]
pub fn number(word: Word<'_>, least: u64, most: u64) -> Result<u64, ParseFault>
    ensures value { ReadsAs (λ n. n) result (numbers.number least most (view word.entry)) }
    ensures within { IfOk result (λ n. n ≤ most) }
    ensures memory { NeedsNoMemory result }
{
    match decimal(word.text, MOST_DIGITS) {
        Some(value) if least <= value && value <= most => Ok(value),
        Some(_) => Err(word.fault(Kind::NumberRange)),
        None => Err(word.fault(Kind::BadNumber)),
    }
}

/// Whether the text begins with a digit.
#[tactic(auto, unfolding(crate::specs::Numbers::starts_with_digit))]
pub fn starts_with_digit(text: &[u8]) -> bool
    ensures { result ≡ numbers.starts_with_digit text.now }
{
    match text {
        [] => false,
        [first, ..] => first.is_ascii_digit(),
    }
}

/// The number of a set, 0 to 31.
#[tactic(auto, unfolding(crate::specs::Numbers::set_number))]
pub fn set_number(word: Word<'_>) -> Result<u8, ParseFault>
    ensures value { ReadsAs (λ n. n) result (numbers.set_number (view word.entry)) }
    ensures memory { NeedsNoMemory result }
{
    if starts_with_digit(word.text) {
        Ok(number(word, 0, 31)? as u8)
    } else {
        Err(word.fault(Kind::UnknownWord))
    }
}

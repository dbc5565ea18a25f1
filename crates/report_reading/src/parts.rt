ghost use Rattle.std.specs.Prelude.{◌≡◌, ◌≤◌, ◌+◌, ◌*◌, nat_le, nat_eq, codes, if◌then◌else◌, None, Some, IfSome};
ghost use Rattle.std.specs.Cmp.Lexicographic.{pointwise};
ghost use Rattle.std.specs.Option.{option_map};
ghost use Rattle.report_reading.specs.Parts as spec;

/// The text behind a word that the text begins with. It goes byte by byte: most words differ in the
/// first, and std's comparison of slices is made for long ones.
pub fn behind<'a>(word: &[u8], text: &'a [u8]) -> Option<&'a [u8]>
    ensures { option_map (λ rest. rest.now) result ≡ spec.behind word.now text.now }
{
    if text.len() < word.len() {
        return None;
    }
    for (at, letter) in word.iter().enumerate() {
        if text[at] != *letter {
            return None;
        }
    }
    Some(&text[word.len()..])
}

/// Whether a text is this word.
pub(crate) fn is_word(text: &[u8], word: &[u8]) -> bool
    ensures { result ≡ pointwise nat_eq text.now word.now }
{
    match behind(word, text) {
        Some(rest) => rest.is_empty(),
        None => false,
    }
}

/// Whether nothing is left of a line but its end.
pub(crate) fn is_end(text: &[u8]) -> bool
    ensures { result ≡ pointwise nat_eq text.now (codes "\n") }
{
    is_word(text, b"\n")
}

/// The number with one digit more, where it is at most so great.
fn with_digit(value: u64, digit: u8, most: u64) -> Option<u64>
    requires { digit ≤ 9 }
    ensures { result ≡ (if nat_le (10 * value + digit) most then Some (10 * value + digit) else None) }
{
    let digit = u64::from(digit);
    if digit <= most && value <= (most - digit) / 10 {
        Some(10 * value + digit)
    } else {
        None
    }
}

/// The number that the digits at the front write, where it is at most so great, and the text behind them.
pub fn number_on(text: &[u8], most: u64) -> Option<(u64, &[u8])>
    ensures value { option_map (λ found. (found.0, found.1.now)) result ≡ spec.number_on most 0 text.now }
    ensures within { IfSome result (λ found. found.0 ≤ most) }
{
    let mut value: u64 = 0;
    for (at, byte) in text.iter().enumerate() {
        if !byte.is_ascii_digit() {
            return Some((value, &text[at..]));
        }
        match with_digit(value, *byte - b'0', most) {
            Some(more) => value = more,
            None => return None,
        }
    }
    Some((value, &[]))
}

/// A number from 1 on, without leading zeros, that is at most so great.
#[tactic(auto, unfolding(crate::specs::Parts::positive_at))]
pub(crate) fn positive(text: &[u8], most: u64) -> Option<(u64, &[u8])>
    ensures value { option_map (λ found. (found.0, found.1.now)) result ≡ spec.positive_at most text.now }
    ensures within { IfSome result (λ found. found.0 ≤ most) }
{
    match text {
        [b'0', ..] => None,
        [first, ..] if first.is_ascii_digit() => number_on(text, most),
        _ => None,
    }
}

/// A number without leading zeros, that is at most so great.
#[tactic(auto, unfolding(crate::specs::Parts::number_at))]
pub(crate) fn number(text: &[u8], most: u64) -> Option<(u64, &[u8])>
    ensures value { option_map (λ found. (found.0, found.1.now)) result ≡ spec.number_at most text.now }
    ensures within { IfSome result (λ found. found.0 ≤ most) }
{
    match text {
        [b'0', rest @ ..] => Some((0, rest)),
        [_, ..] => positive(text, most),
        [] => None,
    }
}

/// The number of a rule: five digits.
#[tactic(auto, unfolding(crate::specs::Parts::rule_number_at))]
pub(crate) fn rule_number(text: &[u8]) -> Option<(u16, &[u8])>
    ensures { option_map (λ found. (found.0, found.1.now)) result ≡ spec.rule_number_at text.now }
{
    if text.len() < 5 {
        return None;
    }
    match number_on(&text[..5], 65535) {
        Some((number, [])) => Some((number as u16, &text[5..])),
        _ => None,
    }
}

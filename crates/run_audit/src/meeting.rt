ghost use Rattle.std.specs.Prelude.{◌≡◌, ◌≤◌, ℕ, List, ◌++◌, length};
ghost use Rattle.run_audit.specs.Comparison.{line_of_first_other};
ghost use Rattle.run_audit.specs.Meeting.{IsMet};

use crate::lengths::{line_ends, shared_length};

/// How far a text is met, and whether something else follows, when these bytes are written behind
/// others.
pub(crate) fn met_behind(text: &[u8], met: usize, other: bool, bytes: &[u8]) -> (usize, bool)
    requires { met ≤ length text.now }
    ensures { (written : List ℕ) → IsMet text.now written met other
        → IsMet text.now (written ++ bytes.now) result.0 result.1 }
{
    if other {
        return (met, true);
    }
    let shared = shared_length(bytes, &text[met..]);
    if shared < bytes.len() {
        (met + shared, true)
    } else {
        (met + shared, false)
    }
}

/// The first line in which what was written isn't the text.
pub(crate) fn first_difference(text: &[u8], met: usize, other: bool) -> Option<u64>
    requires { met ≤ length text.now }
    ensures { (written : List ℕ) → IsMet text.now written met other
        → result ≡ line_of_first_other 1 written text.now }
{
    if other {
        return Some(1 + line_ends(&text[..met]));
    }
    if met < text.len() {
        return Some(1 + line_ends(&text[..met]));
    }
    None
}

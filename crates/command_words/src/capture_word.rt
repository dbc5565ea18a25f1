ghost use Rattle.std.specs.Prelude.{◌≡◌};
ghost use Rattle.std.specs.Option.{option_map};
ghost use Rattle.command_words.specs.Invocation.{capture_names};
ghost use Rattle.command_words.specs.Words as spec;

use crate::bytes::cut_at;
use fw_base::{Direction, are_name_bytes};

/// What a capture's word names.
#[derive(Clone, Copy)]
pub struct CaptureWord<'a> {
    /// Which way its packets passed the interface.
    pub direction: Direction,
    /// The interface's name: 1 to 15 letters, digits, `_`, `.` and `-`.
    pub interface: &'a [u8],
    /// The capture's name, which isn't empty.
    pub name: &'a [u8],
}

#[tactic(auto, unfolding(crate::specs::Words::is_interface))]
fn is_interface(name: &[u8]) -> bool
    ensures { result ≡ spec.is_interface name.now }
{
    !name.is_empty() && name.len() <= 15 && are_name_bytes(name)
}

#[tactic(auto, unfolding(crate::specs::Words::direction_of))]
fn direction_of(word: &[u8]) -> Option<Direction>
    ensures { result ≡ spec.direction_of word.now }
{
    if word == b"in".as_slice() {
        Some(Direction::In)
    } else if word == b"out".as_slice() {
        Some(Direction::Out)
    } else {
        None
    }
}

/// What a capture's word names: its direction, interface and name.
#[tactic(auto, unfolding(crate::specs::Words::capture_of))]
pub(crate) fn capture_of(word: &[u8]) -> Option<CaptureWord<'_>>
    ensures { option_map capture_names result ≡ spec.capture_of word.now }
{
    let (direction, rest) = cut_at(word, b':')?;
    let direction = direction_of(direction)?;
    let (interface, name) = cut_at(rest, b':')?;
    if is_interface(interface) && !name.is_empty() {
        Some(CaptureWord {
            direction,
            interface,
            name,
        })
    } else {
        None
    }
}

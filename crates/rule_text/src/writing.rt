ghost use Rattle.std.specs.Prelude.{◌≡◌, ◌≤◌, ◌^◌, ◌<◌, ◌++◌, ℕ, List, map, codes, if◌then◌else◌};
ghost use Rattle.std.specs.List.{join_with_byte};
ghost use Rattle.std.specs.Fmt.{decimal};
ghost use Rattle.fw_base.specs.Texts.{WritesText};
ghost use Rattle.rule_text.specs.Canonical.{five_digits, spaced_text, list_words};
ghost use Rattle.rule_text.specs.Pieces.{pieces_text, piece_text};

use crate::digits::{MOST_DIGITS, put_digits};
use fw_base::{Failed, Sink, write_text};

/// A piece of a text: bytes as they are, or a number in decimal digits.
#[derive(Clone, Copy)]
pub(crate) enum Piece<'a> {
    Text(&'a [u8]),
    Number(u32),
}

/// Writes one piece.
pub(crate) fn write_piece<K: Sink>(out: &mut K, piece: Piece<'_>) -> Result<(), Failed>
    ensures { WritesText (K.state out.old) (K.state out.new) (piece_text piece.entry) result }
{
    match piece {
        Piece::Text(bytes) => write_text(out, bytes),
        Piece::Number(n) => {
            let mut buffer = [0; MOST_DIGITS];
            let start = put_digits(n, &mut buffer);
            write_text(out, &buffer[start..])
        }
    }
}

/// Writes the pieces one after another.
pub(crate) fn write_pieces<K: Sink>(out: &mut K, pieces: &[Piece<'_>]) -> Result<(), Failed>
    ensures { WritesText (K.state out.old) (K.state out.new) (pieces_text pieces.now) result }
{
    for piece in pieces {
        write_piece(out, *piece)?;
    }
    Ok(())
}

/// Writes a number as five digits with leading zeros. Where the sink fails, a front of them was written.
pub fn write_five_digits<K: Sink>(out: &mut K, n: u16) -> Result<(), Failed>
    ensures { WritesText (K.state out.old) (K.state out.new) (five_digits n) result }
{
    let mut buffer = [0; MOST_DIGITS];
    let start = put_digits(u32::from(n), &mut buffer);
    write_text(out, &b"00000"[..start - 5])?;
    write_text(out, &buffer[start..])
}

/// What stands in a list of a rule, separated by commas.
pub(crate) trait Element {
    ghost text: { Self → List ℕ };

    /// Writes its text.
    fn write<K: Sink>(&self, out: &mut K) -> Result<(), Failed>
        ensures { WritesText (K.state out.old) (K.state out.new) (text self.now) result };
}

/// Writes the elements with that byte between them.
pub(crate) fn write_joined<T: Element, K: Sink>(
    out: &mut K,
    between: u8,
    items: &[T],
) -> Result<(), Failed>
    ensures { WritesText (K.state out.old) (K.state out.new)
        (join_with_byte between (map T.text items.now)) result }
{
    let Some((first, others)) = items.split_first() else {
        return Ok(());
    };
    first.write(out)?;
    for item in others {
        write_text(out, &[between])?;
        item.write(out)?;
    }
    Ok(())
}

/// Writes a list as a word, behind `not` where it is negated.
pub(crate) fn write_list_words<T: Element, K: Sink>(
    out: &mut K,
    negated: bool,
    items: &[T],
) -> Result<(), Failed>
    ensures { WritesText (K.state out.old) (K.state out.new)
        (spaced_text (list_words negated (map T.text items.now))) result }
{
    write_text(out, list_start(negated))?;
    write_joined(out, b',', items)
}

fn list_start(negated: bool) -> &'static [u8]
    ensures { result.now ≡ (if negated then codes " not " else codes " ") }
{
    if negated { b" not " } else { b" " }
}

ghost use Rattle.fw_base.specs.Texts.{WritesText};
ghost use Rattle.report_page.specs.Pieces as spec;

use crate::write_escaped;
use fw_base::{Failed, OutOfMemory, Sink, write_text};
use itoa::Buffer;

/// A piece of a page. Markup is a constant of the program, which text of a report can't be.
#[derive(Clone, Copy)]
pub enum Piece<'a> {
    Markup(&'static [u8]),
    /// Text that isn't the page's own.
    Text(&'a [u8]),
    Figure(u64),
}

fn write_figure<K: Sink>(out: &mut K, figure: u64) -> Result<(), Failed>
    ensures { WritesText (K.state out.old) (K.state out.new)
        (spec.piece_text (Piece.Figure figure)) result }
{
    let mut digits = Buffer::new();
    write_text(out, digits.format(figure).as_bytes())
}

fn write_piece<K: Sink>(out: &mut K, piece: &Piece<'_>) -> Result<(), Failed>
    ensures { WritesText (K.state out.old) (K.state out.new) (spec.piece_text piece.now) result }
{
    match piece {
        Piece::Markup(markup) => write_text(out, markup),
        Piece::Text(text) => write_escaped(out, text),
        Piece::Figure(figure) => write_figure(out, *figure),
    }
}

/// Writes a page: its markup, and each text escaped.
#[tactic(auto, unfolding(crate::specs::Pieces::page_text))]
pub fn write_page<K: Sink>(out: &mut K, pieces: &[Piece<'_>]) -> Result<(), Failed>
    ensures { WritesText (K.state out.old) (K.state out.new) (spec.page_text pieces.now) result }
{
    for piece in pieces {
        write_piece(out, piece)?;
    }
    Ok(())
}

/// Puts pieces behind the others.
pub fn put<'a>(pieces: &mut Vec<Piece<'a>>, more: &[Piece<'a>]) -> Result<(), OutOfMemory> {
    pieces.extend_from_slice(more)?;
    Ok(())
}

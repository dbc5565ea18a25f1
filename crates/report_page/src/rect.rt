use crate::{Piece, put};
use fw_base::OutOfMemory;

/// How wide a column of a picture is, and how high a picture, in its units.
pub(crate) const COLUMN_WIDTH: u64 = 10;

pub(crate) const PICTURE_HEIGHT: u64 = 100;

/// A rectangle of a picture, in its units, from its upper left corner.
#[derive(Clone, Copy)]
pub(crate) struct Rect {
    pub(crate) x: u64,
    pub(crate) y: u64,
    pub(crate) width: u64,
    pub(crate) height: u64,
}

/// Puts a rectangle of this class.
pub(crate) fn put_rect(
    pieces: &mut Vec<Piece<'_>>,
    class: &'static [u8],
    rect: &Rect,
) -> Result<(), OutOfMemory> {
    put(
        pieces,
        &[
            Piece::Markup(b"<rect class=\""),
            Piece::Markup(class),
            Piece::Markup(b"\" x=\""),
            Piece::Figure(rect.x),
            Piece::Markup(b"\" y=\""),
            Piece::Figure(rect.y),
            Piece::Markup(b"\" width=\""),
            Piece::Figure(rect.width),
            Piece::Markup(b"\" height=\""),
            Piece::Figure(rect.height),
            Piece::Markup(b"\"/>"),
        ],
    )
}

ghost use Rattle.std.specs.Prelude.{◌<◌};

use crate::rect::{COLUMN_WIDTH, PICTURE_HEIGHT, Rect, put_rect};
use crate::shares::share;
use crate::{Bin, Piece, Shade, bins_of, put};
use fw_base::OutOfMemory;
use std::alloc::Global;

/// How many bins a strip has at most.
const MOST_BINS: usize = 200;

/// Four kinds of records in a strip: the class of each, from the top, and how a title tells it.
#[derive(Clone, Copy)]
pub(crate) struct Kinds {
    pub(crate) classes: [&'static [u8]; 4],
    pub(crate) words: [&'static [u8]; 4],
}

/// What a strip tells: its kinds, and its title around the number of its capture.
#[derive(Clone, Copy)]
pub(crate) struct StripWords {
    pub(crate) kinds: Kinds,
    pub(crate) title: [&'static [u8]; 2],
}

/// How many records a bin has, so that there are few enough of them.
pub(crate) fn bin_size(records: usize) -> usize
    ensures { 0 < result }
{
    (records / MOST_BINS).saturating_add(1)
}

/// Puts the key of a strip: what each class of a part stands for.
pub(crate) fn put_key(
    pieces: &mut Vec<Piece<'_>>,
    key: &[(&'static [u8], &'static [u8])],
) -> Result<(), OutOfMemory> {
    put(pieces, &[Piece::Markup(b"<ul class=\"key\">")])?;
    for (class, words) in key {
        put(
            pieces,
            &[
                Piece::Markup(b"<li><svg viewBox=\"0 0 1 1\" aria-hidden=\"true\"><rect class=\""),
                Piece::Markup(class),
                Piece::Markup(b"\" width=\"1\" height=\"1\"/></svg>"),
                Piece::Markup(words),
                Piece::Markup(b"</li>"),
            ],
        )?;
    }
    put(pieces, &[Piece::Markup(b"</ul>\n")])
}

/// Puts the title of a bin: its records from this first one on, and how many of each kind.
fn put_bin_title(
    pieces: &mut Vec<Piece<'_>>,
    kinds: &Kinds,
    counts: &[u64; 4],
    total: u64,
    first: u64,
) -> Result<(), OutOfMemory> {
    put(
        pieces,
        &[
            Piece::Markup(b"<title>records "),
            Piece::Figure(first),
            Piece::Markup(b" to "),
            Piece::Figure(first.saturating_add(total).saturating_sub(1)),
            Piece::Markup(b":"),
        ],
    )?;
    for (count, word) in counts.iter().zip(&kinds.words) {
        if *count > 0 {
            put(
                pieces,
                &[
                    Piece::Markup(b" "),
                    Piece::Figure(*count),
                    Piece::Markup(word),
                ],
            )?;
        }
    }
    put(pieces, &[Piece::Markup(b"</title>")])
}

/// Puts the parts of the bin in this place, one for each kind, from the top.
fn put_bin_parts(
    pieces: &mut Vec<Piece<'_>>,
    kinds: &Kinds,
    counts: &[u64; 4],
    total: u64,
    place: u64,
) -> Result<(), OutOfMemory> {
    let mut before: u64 = 0;
    for (count, class) in counts.iter().zip(&kinds.classes) {
        if *count > 0 {
            let y = share(before, total, PICTURE_HEIGHT);
            before = before.saturating_add(*count);
            let end = share(before, total, PICTURE_HEIGHT);
            let part = Rect {
                x: place.saturating_mul(COLUMN_WIDTH),
                y,
                width: COLUMN_WIDTH,
                height: end.saturating_sub(y),
            };
            put_rect(pieces, class, &part)?;
        }
    }
    Ok(())
}

/// Puts a bin: a title, and a part for each kind.
fn put_bin(
    pieces: &mut Vec<Piece<'_>>,
    kinds: &Kinds,
    bin: &Bin,
    place: u64,
    first: u64,
) -> Result<(), OutOfMemory> {
    let counts = [
        bin.allow as u64,
        bin.deny as u64,
        bin.answered as u64,
        bin.unread as u64,
    ];
    let mut total: u64 = 0;
    for count in counts {
        total = total.saturating_add(count);
    }
    put(pieces, &[Piece::Markup(b"<g>")])?;
    put_bin_title(pieces, kinds, &counts, total, first)?;
    put_bin_parts(pieces, kinds, &counts, total, place)?;
    put(pieces, &[Piece::Markup(b"</g>\n")])
}

/// Puts the bins of the strip of a capture. The picture is left open.
pub(crate) fn put_bins(
    alloc: Global,
    pieces: &mut Vec<Piece<'_>>,
    words: &StripWords,
    capture: u64,
    shades: &[Shade],
) -> Result<(), OutOfMemory> {
    let size = bin_size(shades.len());
    let bins = bins_of(alloc, shades, size)?;
    let [before, behind] = words.title;
    put(
        pieces,
        &[
            Piece::Markup(b"<div class=\"strip\"><svg role=\"img\" viewBox=\"0 0 "),
            Piece::Figure(
                (bins.len() as u64)
                    .saturating_mul(COLUMN_WIDTH)
                    .max(COLUMN_WIDTH),
            ),
            Piece::Markup(b" 100\" preserveAspectRatio=\"none\"><title>"),
            Piece::Markup(before),
            Piece::Figure(capture),
            Piece::Markup(behind),
            Piece::Markup(b"</title>\n"),
        ],
    )?;
    for (place, bin) in bins.iter().enumerate() {
        let first = (place as u64).saturating_mul(size as u64).saturating_add(1);
        put_bin(pieces, &words.kinds, bin, place as u64, first)?;
    }
    Ok(())
}

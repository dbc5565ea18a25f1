use crate::strip::{Kinds, StripWords, put_bins, put_key};
use crate::{Piece, Shade, put};
use fw_base::OutOfMemory;
use fw_rule::Items;
use report_moves::Move;
use report_values::text_at;
use std::alloc::Global;

/// How many moves are shown at most; of more the page tells how many there are.
const MOST_MOVES: usize = 500;

/// What moved between two reports.
#[derive(Clone, Copy)]
pub struct MovesShown<'a> {
    /// The texts of the outcomes.
    pub texts: &'a [Items<u8>],
    /// The outcomes' numbers for the records of each capture, then and now.
    pub old: &'a [Items<u32>],
    pub new: &'a [Items<u32>],
    /// What moved, the most records first.
    pub moved: &'a [Move],
    pub moved_records: u64,
    /// How many of them came to another verdict.
    pub verdict_records: u64,
    pub stayed_records: u64,
}

/// What a strip of moves tells.
const MOVES: StripWords = StripWords {
    kinds: Kinds {
        classes: [b"stayed", b"moved", b"moved", b"moved"],
        words: [b" stayed", b" moved", b" moved", b" moved"],
    },
    title: [
        b"Where the moves of capture ",
        b" fell, from its first record to its last",
    ],
};

/// The key of a strip of moves.
const KEY: [(&[u8], &[u8]); 2] = [(b"moved", b"moved"), (b"stayed", b"stayed")];

/// Which records of a capture moved.
fn shades_of(alloc: Global, old: &[u32], new: &[u32]) -> Result<Vec<Shade>, OutOfMemory> {
    let mut shades = Vec::with_capacity(alloc, old.len())?;
    for (was, is) in old.iter().zip(new) {
        shades.push(if *was == *is {
            Shade::Allow
        } else {
            Shade::Deny
        })?;
    }
    Ok(shades)
}

/// Puts where the moves of a capture fell.
fn put_strip(
    alloc: Global,
    pieces: &mut Vec<Piece<'_>>,
    number: u64,
    old: &[u32],
    new: &[u32],
) -> Result<(), OutOfMemory> {
    if old.is_empty() {
        return Ok(());
    }
    let shades = shades_of(alloc, old, new)?;
    put(
        pieces,
        &[
            Piece::Markup(b"<h3>Where they fell in capture "),
            Piece::Figure(number),
            Piece::Markup(b"</h3>\n"),
        ],
    )?;
    put_bins(alloc, pieces, &MOVES, number, &shades)?;
    put(pieces, &[Piece::Markup(b"</svg></div>\n")])
}

/// Puts the row of a move.
fn put_move<'a>(
    pieces: &mut Vec<Piece<'a>>,
    texts: &'a [Items<u8>],
    told: &Move,
) -> Result<(), OutOfMemory> {
    put(
        pieces,
        &[
            Piece::Markup(b"<tr><td class=\"n\" data-label=\"records\">"),
            Piece::Figure(told.span.records),
            Piece::Markup(b"</td><td class=\"n\" data-label=\"capture\">"),
            Piece::Figure(told.capture),
            Piece::Markup(b"</td><td class=\"n\" data-label=\"first\">"),
            Piece::Figure(told.span.first),
            Piece::Markup(b"</td><td class=\"n\" data-label=\"last\">"),
            Piece::Figure(told.span.last),
            Piece::Markup(b"</td><td class=\"text\" data-label=\"then\"><span>"),
            Piece::Text(text_at(texts, told.was)),
            Piece::Markup(b"</span></td><td class=\"text\" data-label=\"now\"><span>"),
            Piece::Text(text_at(texts, told.is)),
            Piece::Markup(b"</span></td></tr>\n"),
        ],
    )
}

/// Puts the table of moves.
fn put_table<'a>(pieces: &mut Vec<Piece<'a>>, moves: &MovesShown<'a>) -> Result<(), OutOfMemory> {
    put(
        pieces,
        &[Piece::Markup(
            b"<div class=\"wide\"><table id=\"moves\"><thead><tr><th class=\"n\">records</th>\
              <th class=\"n\">capture</th><th class=\"n\">first</th><th class=\"n\">last</th>\
              <th>then</th><th>now</th></tr></thead><tbody>\n",
        )],
    )?;
    for told in moves.moved.iter().take(MOST_MOVES) {
        put_move(pieces, moves.texts, told)?;
    }
    put(pieces, &[Piece::Markup(b"</tbody></table></div>\n")])?;
    if moves.moved.len() > MOST_MOVES {
        put(
            pieces,
            &[
                Piece::Markup(b"<p>And "),
                Piece::Figure((moves.moved.len() - MOST_MOVES) as u64),
                Piece::Markup(b" more.</p>\n"),
            ],
        )?;
    }
    Ok(())
}

/// Puts what moved.
pub(crate) fn put_moves<'a>(
    alloc: Global,
    pieces: &mut Vec<Piece<'a>>,
    moves: &MovesShown<'a>,
) -> Result<(), OutOfMemory> {
    put(
        pieces,
        &[
            Piece::Markup(
                b"<section><h2>What moved to the second report</h2>\n<p><span id=\"moved\">",
            ),
            Piece::Figure(moves.moved_records),
            Piece::Markup(
                b"</span> records came to another verdict or rule, <span id=\"verdicts\">",
            ),
            Piece::Figure(moves.verdict_records),
            Piece::Markup(b"</span> of them to another verdict; <span id=\"stayed\">"),
            Piece::Figure(moves.stayed_records),
            Piece::Markup(b"</span> stayed.</p>\n"),
        ],
    )?;
    if !moves.moved.is_empty() {
        put_table(pieces, moves)?;
        put_key(pieces, &KEY)?;
        for (at, (old, new)) in moves.old.iter().zip(moves.new).enumerate() {
            put_strip(
                alloc,
                pieces,
                (at as u64).saturating_add(1),
                old.as_slice(),
                new.as_slice(),
            )?;
        }
    }
    put(pieces, &[Piece::Markup(b"</section>\n")])
}

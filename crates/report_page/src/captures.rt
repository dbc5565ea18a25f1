use crate::rect::COLUMN_WIDTH;
use crate::shares::share;
use crate::strip::{Kinds, StripWords, bin_size, put_bins, put_key};
use crate::{Bin, Piece, Shade, put};
use eval_engine::{DocketEntry, Verdict};
use fw_base::OutOfMemory;
use report_values::{Capture, Report};
use std::alloc::Global;

/// How many borders of editions are drawn at most.
const MOST_BORDERS: usize = 100;

/// What a strip of verdicts tells.
const VERDICTS: StripWords = StripWords {
    kinds: Kinds {
        classes: [b"allow", b"deny", b"answered", b"unread"],
        words: [
            b" allowed",
            b" denied",
            b" denied with an answer",
            b" not judged",
        ],
    },
    title: [
        b"The verdicts of capture ",
        b" from its first record to its last",
    ],
};

/// The key of a strip of verdicts.
const KEY: [(&[u8], &[u8]); 4] = [
    (b"allow", b"allowed"),
    (b"deny", b"denied"),
    (b"answered", b"denied with an answer"),
    (
        b"unread",
        b"not judged: no IP, or a header that can't be read",
    ),
];

/// How a verdict is shown.
fn verdict_shade(verdict: Verdict) -> Shade {
    match verdict {
        Verdict::Allow => Shade::Allow,
        Verdict::Deny => Shade::Deny,
        Verdict::Reset | Verdict::Unreach(_) => Shade::Answered,
    }
}

/// How an entry is shown.
fn shade_of(entry: &DocketEntry) -> Shade {
    match entry {
        DocketEntry::Other | DocketEntry::Malformed(_) => Shade::Unread,
        DocketEntry::Judged { verdict, .. }
        | DocketEntry::Limited { verdict, .. }
        | DocketEntry::Full { verdict, .. } => verdict_shade(*verdict),
    }
}

/// The edition under which a record was judged; 0 where it wasn't.
fn edition_of(entry: &DocketEntry) -> u64 {
    match entry {
        DocketEntry::Other | DocketEntry::Malformed(_) => 0,
        DocketEntry::Judged { edition, .. }
        | DocketEntry::Limited { edition, .. }
        | DocketEntry::Full { edition, .. } => *edition,
    }
}

/// Puts the border before a record, from 1, at which an edition begins.
fn put_border(
    pieces: &mut Vec<Piece<'_>>,
    x: u64,
    edition: u64,
    record: u64,
) -> Result<(), OutOfMemory> {
    put(
        pieces,
        &[
            Piece::Markup(b"<line x1=\""),
            Piece::Figure(x),
            Piece::Markup(b"\" x2=\""),
            Piece::Figure(x),
            Piece::Markup(b"\" y1=\"0\" y2=\"100\"><title>edition "),
            Piece::Figure(edition),
            Piece::Markup(b" from record "),
            Piece::Figure(record),
            Piece::Markup(b" on</title></line>\n"),
        ],
    )
}

/// Puts the borders of editions over a strip.
fn put_borders(pieces: &mut Vec<Piece<'_>>, capture: &Capture<'_>) -> Result<(), OutOfMemory> {
    let (kinds, places) = capture.records.parts();
    let size = bin_size(places.len()) as u64;
    let mut edition: u64 = 0;
    let mut borders: usize = 0;
    for (at, place) in places.iter().enumerate() {
        let found = kinds.get(*place as usize).map_or(0, edition_of);
        if found == 0 || found == edition {
            continue;
        }
        if edition > 0 && borders < MOST_BORDERS {
            borders = borders.saturating_add(1);
            let at = at as u64;
            put_border(
                pieces,
                share(at, size, COLUMN_WIDTH),
                found,
                at.saturating_add(1),
            )?;
        }
        edition = found;
    }
    Ok(())
}

/// How the record is shown whose entry has this place among the kinds.
fn shade_at(kinds: &[DocketEntry], place: u32) -> Shade {
    kinds.get(place as usize).map_or(Shade::Unread, shade_of)
}

/// How each record of a capture is shown.
fn shades_of(alloc: Global, capture: &Capture<'_>) -> Result<Vec<Shade>, OutOfMemory> {
    let (kinds, places) = capture.records.parts();
    let mut shades = Vec::with_capacity(alloc, places.len())?;
    for place in places {
        shades.push(shade_at(kinds, *place))?;
    }
    Ok(shades)
}

/// Counts a record of this shade.
fn count_shade(total: &mut Bin, shade: Shade) {
    match shade {
        Shade::Allow => total.allow = total.allow.saturating_add(1),
        Shade::Deny => total.deny = total.deny.saturating_add(1),
        Shade::Answered => total.answered = total.answered.saturating_add(1),
        Shade::Unread => total.unread = total.unread.saturating_add(1),
    }
}

/// Counts the records of a capture.
fn count_capture(total: &mut Bin, capture: &Capture<'_>) {
    let (kinds, places) = capture.records.parts();
    for place in places {
        count_shade(total, shade_at(kinds, *place));
    }
}

/// How many records of each shade all captures have.
pub(crate) fn totals_of(report: &Report<'_>) -> Bin {
    let mut total = Bin {
        allow: 0,
        deny: 0,
        answered: 0,
        unread: 0,
    };
    for capture in &report.captures {
        count_capture(&mut total, capture);
    }
    total
}

/// Puts the strip of a capture.
fn put_capture<'a>(
    alloc: Global,
    pieces: &mut Vec<Piece<'a>>,
    number: u64,
    capture: &Capture<'a>,
) -> Result<(), OutOfMemory> {
    let records = capture.records.len() as u64;
    put(
        pieces,
        &[
            Piece::Markup(b"<h3>Capture "),
            Piece::Figure(number),
            Piece::Markup(b": "),
            Piece::Figure(records),
            Piece::Markup(b" records</h3>\n"),
        ],
    )?;
    if records == 0 {
        return Ok(());
    }
    let shades = shades_of(alloc, capture)?;
    put_bins(alloc, pieces, &VERDICTS, number, &shades)?;
    put_borders(pieces, capture)?;
    put(pieces, &[Piece::Markup(b"</svg></div>\n")])
}

/// Puts the strips of all captures, and how often their caches had the verdict.
pub(crate) fn put_captures<'a>(
    alloc: Global,
    pieces: &mut Vec<Piece<'a>>,
    report: &Report<'a>,
) -> Result<(), OutOfMemory> {
    put(
        pieces,
        &[Piece::Markup(
            b"<section><h2>Captures</h2>\n<p class=\"quiet\">From left to right the records in \
              their order, in columns of equally many. A dashed line is where the next edition of \
              the rules begins.</p>\n",
        )],
    )?;
    put_key(pieces, &KEY)?;
    for (at, capture) in report.captures.iter().enumerate() {
        put_capture(alloc, pieces, (at as u64).saturating_add(1), capture)?;
    }
    for (at, hits) in report.sections.hits.iter().enumerate() {
        put(
            pieces,
            &[
                Piece::Markup(b"<p>The cache of capture "),
                Piece::Figure((at as u64).saturating_add(1)),
                Piece::Markup(b" had the verdict of "),
                Piece::Figure(*hits),
                Piece::Markup(b" packets.</p>\n"),
            ],
        )?;
    }
    put(pieces, &[Piece::Markup(b"</section>\n")])
}

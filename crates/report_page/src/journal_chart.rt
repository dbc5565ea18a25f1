use crate::axis::Axis;
use crate::column::Column;
use crate::journal_columns::{asks_in, columns_of};
use crate::live_states::LiveStates;
use crate::rect::{COLUMN_WIDTH, PICTURE_HEIGHT, Rect, put_rect};
use crate::shares::share;
use crate::strip::put_key;
use crate::{Piece, put};
use fw_base::OutOfMemory;
use report_values::Report;
use std::alloc::Global;

/// The key of the chart.
const KEY: [(&[u8], &[u8]); 2] = [(b"fill", b"asks"), (b"allow", b"those that made a state")];

/// What a chart of a count for each column tells: its title, and that of a column before the second,
/// before the count and behind it.
#[derive(Clone, Copy)]
struct CountWords {
    title: &'static [u8],
    before: &'static [u8],
    middle: &'static [u8],
    behind: &'static [u8],
}

/// States made so far.
const MADE: CountWords = CountWords {
    title: b"States made so far along the seconds, from ",
    before: b"up to the column of second ",
    middle: b": ",
    behind: b" states made",
};

/// Live states.
const LIVE: CountWords = CountWords {
    title: b"Live states along the seconds, from ",
    before: b"in the column of second ",
    middle: b": at most ",
    behind: b" live states",
};

/// Puts the bar of a count in the column of this place, beside the greatest one, which is as high as the
/// chart. Between two bars is a gap.
fn put_bar(
    pieces: &mut Vec<Piece<'_>>,
    class: &'static [u8],
    place: u64,
    count: u64,
    most: u64,
) -> Result<(), OutOfMemory> {
    let height = share(count, most, PICTURE_HEIGHT);
    let bar = Rect {
        x: place.saturating_mul(COLUMN_WIDTH),
        y: PICTURE_HEIGHT.saturating_sub(height),
        width: COLUMN_WIDTH - 1,
        height,
    };
    put_rect(pieces, class, &bar)
}

/// Puts a column: what was asked, and how many states were made.
fn put_column(
    pieces: &mut Vec<Piece<'_>>,
    column: &Column,
    place: u64,
    second: u64,
    most: u64,
) -> Result<(), OutOfMemory> {
    put(
        pieces,
        &[
            Piece::Markup(b"<g><title>from second "),
            Piece::Figure(second),
            Piece::Markup(b": "),
            Piece::Figure(column.asks),
            Piece::Markup(b" asks, "),
            Piece::Figure(column.made),
            Piece::Markup(b" states made</title>"),
        ],
    )?;
    put_bar(pieces, b"fill", place, column.asks, most)?;
    put_bar(pieces, b"allow", place, column.made, most)?;
    put(pieces, &[Piece::Markup(b"</g>\n")])
}

/// Puts the beginning of a chart, with its title.
fn put_beginning(
    pieces: &mut Vec<Piece<'_>>,
    axis: &Axis<'_>,
    title: &'static [u8],
) -> Result<(), OutOfMemory> {
    let count = axis.columns.len() as u64;
    put(
        pieces,
        &[
            Piece::Markup(b"<div class=\"strip\"><svg role=\"img\" viewBox=\"0 0 "),
            Piece::Figure(count.saturating_mul(COLUMN_WIDTH)),
            Piece::Markup(b" 100\" preserveAspectRatio=\"none\"><title>"),
            Piece::Markup(title),
            Piece::Figure(axis.first),
            Piece::Markup(b" on, each column of "),
            Piece::Figure(axis.seconds),
            Piece::Markup(b"</title>\n"),
        ],
    )
}

/// Puts the chart of what was asked along the seconds.
fn put_asks(pieces: &mut Vec<Piece<'_>>, axis: &Axis<'_>) -> Result<(), OutOfMemory> {
    let mut most: u64 = 0;
    for column in axis.columns {
        most = most.max(column.asks);
    }
    put_beginning(
        pieces,
        axis,
        b"Asks and states made along the seconds, from ",
    )?;
    for (place, column) in axis.columns.iter().enumerate() {
        let place = place as u64;
        put_column(pieces, column, place, axis.second_at(place), most)?;
    }
    put(pieces, &[Piece::Markup(b"</svg></div>\n")])
}

/// Puts a chart of a count for each column, by the greatest of them.
fn put_counts(
    pieces: &mut Vec<Piece<'_>>,
    axis: &Axis<'_>,
    words: &CountWords,
    counts: &[u64],
    most: u64,
) -> Result<(), OutOfMemory> {
    put_beginning(pieces, axis, words.title)?;
    for (place, count) in counts.iter().enumerate() {
        let place = place as u64;
        put(
            pieces,
            &[
                Piece::Markup(b"<g><title>"),
                Piece::Markup(words.before),
                Piece::Figure(axis.second_at(place)),
                Piece::Markup(words.middle),
                Piece::Figure(*count),
                Piece::Markup(words.behind),
                Piece::Markup(b"</title>"),
            ],
        )?;
        put_bar(pieces, b"allow", place, *count, most)?;
        put(pieces, &[Piece::Markup(b"</g>\n")])?;
    }
    put(pieces, &[Piece::Markup(b"</svg></div>\n")])
}

/// How many states were made up to each column.
fn made_so_far(alloc: Global, columns: &[Column]) -> Result<Vec<u64>, OutOfMemory> {
    let mut counts = Vec::with_capacity(alloc, columns.len())?;
    let mut made: u64 = 0;
    for column in columns {
        made = made.saturating_add(column.made);
        counts.push(made)?;
    }
    Ok(counts)
}

/// The greatest of some counts.
fn most_of(counts: &[u64]) -> u64 {
    let mut most: u64 = 0;
    for count in counts {
        most = most.max(*count);
    }
    most
}

/// Puts the chart of the states made so far, and how many of them live at the end.
fn put_made(
    pieces: &mut Vec<Piece<'_>>,
    axis: &Axis<'_>,
    made: &[u64],
    live: u64,
) -> Result<(), OutOfMemory> {
    let all = most_of(made);
    put(
        pieces,
        &[
            Piece::Markup(b"<h3>States made so far</h3>\n<p><span id=\"made\">"),
            Piece::Figure(all),
            Piece::Markup(b"</span> states were made, and "),
            Piece::Figure(live),
            Piece::Markup(
                b" live at the end. When the others died the report doesn't tell: that goes by \
                  the lifetimes which the script sets.</p>\n",
            ),
        ],
    )?;
    if all == 0 {
        return Ok(());
    }
    put_counts(pieces, axis, &MADE, made, all)
}

/// Puts the chart of the live states, how many were made, and how many live at the end.
fn put_live(
    pieces: &mut Vec<Piece<'_>>,
    axis: &Axis<'_>,
    counts: &[u64],
    made: u64,
    live: u64,
) -> Result<(), OutOfMemory> {
    let most = most_of(counts);
    put(
        pieces,
        &[
            Piece::Markup(b"<h3>Live states</h3>\n<p><span id=\"made\">"),
            Piece::Figure(made),
            Piece::Markup(b"</span> states were made. At most <span id=\"most\">"),
            Piece::Figure(most),
            Piece::Markup(b"</span> lived at once, and "),
            Piece::Figure(live),
            Piece::Markup(
                b" live at the end. A column shows the greatest number that lived at once in its \
                  seconds, by the lifetimes which the script sets.</p>\n",
            ),
        ],
    )?;
    if most == 0 {
        return Ok(());
    }
    put_counts(pieces, axis, &LIVE, counts, most)
}

/// Puts the charts of the journal's seconds: what was asked, and below it how many states lived, where
/// that is given, else how many were made so far.
fn put_charts(
    alloc: Global,
    pieces: &mut Vec<Piece<'_>>,
    axis: &Axis<'_>,
    counts: Option<&[u64]>,
    live: u64,
) -> Result<(), OutOfMemory> {
    put_key(pieces, &KEY)?;
    put_asks(pieces, axis)?;
    let made = made_so_far(alloc, axis.columns)?;
    match counts {
        Some(counts) => put_live(pieces, axis, counts, most_of(&made), live),
        None => put_made(pieces, axis, &made, live),
    }
}

/// Puts what the states were asked along the seconds, where the report has its journal, and how many
/// of them lived, where that is given.
pub(crate) fn put_journal<'a>(
    alloc: Global,
    pieces: &mut Vec<Piece<'a>>,
    report: &Report<'a>,
    live: Option<&LiveStates>,
) -> Result<(), OutOfMemory> {
    let Some(journal) = &report.sections.journal else {
        return Ok(());
    };
    put(
        pieces,
        &[
            Piece::Markup(
                b"<section><h2>What the states were asked</h2>\n<p>The journal has \
                  <span id=\"entries\">",
            ),
            Piece::Figure(journal.entries),
            Piece::Markup(
                b"</span> entries. From left to right stand the seconds of the asks.</p>\n",
            ),
        ],
    )?;
    let shown = match live {
        Some(live) => live.columns,
        None => columns_of(journal),
    };
    if let Some(shown) = shown {
        let columns = asks_in(alloc, journal.lines, &shown)?;
        let axis = Axis {
            first: u64::from(shown.first),
            seconds: u64::from(shown.seconds),
            columns: &columns,
        };
        let counts = live.map(|live| live.counts.as_slice());
        put_charts(
            alloc,
            pieces,
            &axis,
            counts,
            report.sections.states.len() as u64,
        )?;
    }
    put(pieces, &[Piece::Markup(b"</section>\n")])
}

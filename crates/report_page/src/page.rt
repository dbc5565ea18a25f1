use crate::captures::{put_captures, totals_of};
use crate::journal_chart::put_journal;
use crate::live_states::LiveStates;
use crate::moves_table::{MovesShown, put_moves};
use crate::plain_words::{fault_words, refusal_words};
use crate::rules_table::put_rules;
use crate::style::STYLE;
use crate::{Piece, put};
use fw_base::OutOfMemory;
use report_values::Report;
use std::alloc::Global;

/// How many live states are shown at most; of more the page tells how many there are.
const MOST_STATES: usize = 200;

/// Puts what went wrong, on top.
fn put_troubles<'a>(pieces: &mut Vec<Piece<'a>>, report: &Report<'a>) -> Result<(), OutOfMemory> {
    let mut faults: u64 = 0;
    for (at, capture) in report.captures.iter().enumerate() {
        if let Some(fault) = capture.end.fault {
            faults = faults.saturating_add(1);
            put(
                pieces,
                &[
                    Piece::Markup(b"<p class=\"trouble\">Capture "),
                    Piece::Figure((at as u64).saturating_add(1)),
                    Piece::Markup(b", "),
                    Piece::Text(fault),
                    Piece::Markup(b": "),
                    Piece::Markup(fault_words(fault)),
                    Piece::Markup(b". The records before it were judged.</p>\n"),
                ],
            )?;
        }
    }
    for told in &report.sections.refused {
        put(
            pieces,
            &[
                Piece::Markup(b"<p class=\"trouble\">The script's "),
                Piece::Text(told),
                Piece::Markup(b": "),
                Piece::Markup(refusal_words(told)),
                Piece::Markup(b". The command was refused and changed nothing.</p>\n"),
            ],
        )?;
    }
    if faults == 0 && report.sections.refused.is_empty() {
        put(
            pieces,
            &[Piece::Markup(b"<p>No capture has a fault, and no command was refused.</p>\n")],
        )?;
    }
    Ok(())
}

/// Puts a figure with its word.
fn put_figure(
    pieces: &mut Vec<Piece<'_>>,
    name: &'static [u8],
    figure: u64,
    word: &'static [u8],
) -> Result<(), OutOfMemory> {
    put(
        pieces,
        &[
            Piece::Markup(b"<div><dt>"),
            Piece::Markup(word),
            Piece::Markup(b"</dt><dd id=\""),
            Piece::Markup(name),
            Piece::Markup(b"\">"),
            Piece::Figure(figure),
            Piece::Markup(b"</dd></div>\n"),
        ],
    )
}

/// How many records there are.
fn records_in(report: &Report<'_>) -> u64 {
    let mut records: u64 = 0;
    for capture in &report.captures {
        records = records.saturating_add(capture.records.len() as u64);
    }
    records
}

/// Puts how many records there are of each verdict.
fn put_verdicts(pieces: &mut Vec<Piece<'_>>, report: &Report<'_>) -> Result<(), OutOfMemory> {
    let total = totals_of(report);
    put_figure(pieces, b"allowed", total.allow as u64, b"allowed")?;
    put_figure(pieces, b"denied", total.deny as u64, b"denied")?;
    put_figure(
        pieces,
        b"answered",
        total.answered as u64,
        b"denied with an answer",
    )?;
    put_figure(pieces, b"unread", total.unread as u64, b"not judged")
}

/// Puts the figures of the whole report.
fn put_figures<'a>(pieces: &mut Vec<Piece<'a>>, report: &Report<'a>) -> Result<(), OutOfMemory> {
    let sections = &report.sections;
    put(pieces, &[Piece::Markup(b"<dl class=\"figures\">\n")])?;
    put_figure(pieces, b"records", records_in(report), b"records")?;
    put_verdicts(pieces, report)?;
    put_figure(
        pieces,
        b"captures",
        report.captures.len() as u64,
        b"captures",
    )?;
    put_figure(
        pieces,
        b"editions",
        sections.editions,
        b"editions of the rules",
    )?;
    put_figure(
        pieces,
        b"rules",
        sections.rules.len() as u64,
        b"rules in the last one",
    )?;
    put_figure(
        pieces,
        b"states",
        sections.states.len() as u64,
        b"live states at the end",
    )?;
    put(pieces, &[Piece::Markup(b"</dl>\n")])?;
    if !sections.disabled.is_empty() {
        put(
            pieces,
            &[
                Piece::Markup(b"<p>Disabled sets in the last edition: <span id=\"disabled\">"),
                Piece::Text(sections.disabled),
                Piece::Markup(b"</span>.</p>\n"),
            ],
        )?;
    }
    Ok(())
}

/// Puts the live states.
fn put_states<'a>(pieces: &mut Vec<Piece<'a>>, report: &Report<'a>) -> Result<(), OutOfMemory> {
    let states = report.sections.states.as_slice();
    if states.is_empty() {
        return Ok(());
    }
    put(
        pieces,
        &[Piece::Markup(
            b"<section><h2>Live states at the end</h2>\n<p>In the order in which they were made: \
              the rule's number, protocol, source and its port, destination and its port, and \
              the second at which the state dies.</p>\n<ol class=\"text\">\n",
        )],
    )?;
    for told in states.iter().take(MOST_STATES) {
        put(
            pieces,
            &[
                Piece::Markup(b"<li>"),
                Piece::Text(told),
                Piece::Markup(b"</li>\n"),
            ],
        )?;
    }
    put(pieces, &[Piece::Markup(b"</ol>\n")])?;
    if states.len() > MOST_STATES {
        put(
            pieces,
            &[
                Piece::Markup(b"<p>And "),
                Piece::Figure((states.len() - MOST_STATES) as u64),
                Piece::Markup(b" more.</p>\n"),
            ],
        )?;
    }
    put(pieces, &[Piece::Markup(b"</section>\n")])
}

/// The pieces of a page that shows a report, and what moved to another one where that is given. Where
/// counts of live states are given, they stand in place of the states made so far.
pub fn page_of<'a>(
    alloc: Global,
    report: &Report<'a>,
    moves: Option<&MovesShown<'a>>,
    live: Option<&LiveStates>,
) -> Result<Vec<Piece<'a>>, OutOfMemory> {
    let mut pieces = Vec::new(alloc);
    put(
        &mut pieces,
        &[
            Piece::Markup(
                b"<!DOCTYPE html>\n<html lang=\"en\">\n<head>\n<meta charset=\"utf-8\"/>\n\
                  <meta name=\"viewport\" content=\"width=device-width, initial-scale=1\"/>\n\
                  <title>A replay of the firewall</title>\n<style>\n",
            ),
            Piece::Markup(STYLE),
            Piece::Markup(b"</style>\n</head>\n<body>\n<main>\n<h1>What the rules did</h1>\n"),
        ],
    )?;
    put_troubles(&mut pieces, report)?;
    put_figures(&mut pieces, report)?;
    if let Some(moves) = moves {
        put_moves(alloc, &mut pieces, moves)?;
    }
    put_captures(alloc, &mut pieces, report)?;
    put_rules(&mut pieces, &report.sections.rules)?;
    put_states(&mut pieces, report)?;
    put_journal(alloc, &mut pieces, report, live)?;
    put(
        &mut pieces,
        &[Piece::Markup(b"</main>\n</body>\n</html>\n")],
    )?;
    Ok(pieces)
}

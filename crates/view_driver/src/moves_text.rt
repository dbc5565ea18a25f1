ghost use Rattle.std.specs.Prelude.{◌≡◌, [], flat_map, slice_index_or};
ghost use Rattle.fw_base.specs.Texts.{WritesText};
ghost use Rattle.view_driver.specs.ColumnsText as columns;
ghost use Rattle.view_driver.specs.MovesText as text;

use crate::compared::{Compared, records_of};
use crate::flows_text::write_flows;
use fw_base::{Failed, Sink, write_pieces, write_text};
use fw_rule::Items;
use itoa::Buffer;
use report_flows::FlowSpan;
use report_moves::Move;
use report_values::text_at;

/// Writes so many spaces.
pub(crate) fn write_spaces<K: Sink>(out: &mut K, count: usize) -> Result<(), Failed>
    ensures { WritesText (K.state out.old) (K.state out.new) (columns.spaces count) result }
{
    for written in 0..count {
        write_text(out, b" ")?;
    }
    Ok(())
}

/// How wide a column of numbers is.
pub(crate) const NUMBER_WIDTH: usize = 8;

/// Writes a number at the right of its column, and a space before it.
pub(crate) fn write_number<K: Sink>(out: &mut K, number: u64) -> Result<(), Failed>
    ensures { WritesText (K.state out.old) (K.state out.new) (columns.number_text number) result }
{
    let mut digits = Buffer::new();
    let digits = digits.format(number).as_bytes();
    write_spaces(out, NUMBER_WIDTH.saturating_sub(digits.len()))?;
    write_pieces(out, &[b" ", digits])
}

/// Writes the numbers of a move.
fn write_numbers<K: Sink>(out: &mut K, told: &Move) -> Result<(), Failed>
    ensures { WritesText (K.state out.old) (K.state out.new) (text.numbers_text told.now) result }
{
    write_number(out, told.span.records)?;
    write_number(out, told.capture)?;
    write_number(out, told.span.first)?;
    write_number(out, told.span.last)?;
    write_text(out, b"  ")
}

/// How wide the column of the outcomes then is.
fn width_of(texts: &[Items<u8>], moves: &[Move]) -> usize
    ensures { result ≡ text.width_of texts.now moves.now }
{
    let mut width = b"then".len();
    for told in moves {
        width = width.max(text_at(texts, told.was).len());
    }
    width
}

/// The flows of the moves, where they are told.
fn flows_told(compared: &Compared) -> &[Items<FlowSpan>]
    ensures { result.now ≡ text.flows_told compared.now.flows }
{
    match &compared.flows {
        Some(flows) => flows.as_slice(),
        None => &[],
    }
}

/// The flows of the move in this place.
fn flows_at(flows: &[Items<FlowSpan>], place: usize) -> &[FlowSpan]
    ensures { result.now ≡ slice_index_or flows.now place [] }
{
    match flows.get(place) {
        Some(told) => told.as_slice(),
        None => &[],
    }
}

/// Writes an outcome then, filled up to the column's width.
fn write_filled<K: Sink>(out: &mut K, width: usize, outcome: &[u8]) -> Result<(), Failed>
    ensures { WritesText (K.state out.old) (K.state out.new)
        (text.filled_text width outcome.now) result }
{
    write_text(out, outcome)?;
    write_spaces(out, width.saturating_sub(outcome.len()))
}

/// Writes the line of a move.
fn write_line<K: Sink>(
    out: &mut K,
    texts: &[Items<u8>],
    width: usize,
    told: &Move,
) -> Result<(), Failed>
    ensures { WritesText (K.state out.old) (K.state out.new)
        (text.moved_line texts.now width told.now) result }
{
    write_numbers(out, told)?;
    write_filled(out, width, text_at(texts, told.was))?;
    write_pieces(out, &[b"  ", text_at(texts, told.is), b"\n"])
}

/// Writes the line of a move, and below it its flows.
fn write_move<K: Sink>(
    out: &mut K,
    texts: &[Items<u8>],
    width: usize,
    told: &Move,
    flows: &[FlowSpan],
) -> Result<(), Failed>
    ensures { WritesText (K.state out.old) (K.state out.new)
        (text.moved_text texts.now width told.now flows.now) result }
{
    write_line(out, texts, width, told)?;
    write_flows(out, flows)
}

/// Writes what stands above the moves.
fn write_moved_heading<K: Sink>(out: &mut K, width: usize) -> Result<(), Failed>
    ensures { WritesText (K.state out.old) (K.state out.new) (text.moved_heading width) result }
{
    write_text(out, b"\n  records  capture    first     last  then")?;
    write_spaces(out, width.saturating_sub(b"then".len()))?;
    write_text(out, b"  now\n")
}

/// Writes the moves, each with the flows in its place.
fn write_moves<K: Sink>(
    out: &mut K,
    texts: &[Items<u8>],
    width: usize,
    moves: &[Move],
    flows: &[Items<FlowSpan>],
) -> Result<(), Failed>
    ensures { WritesText (K.state out.old) (K.state out.new)
        (text.moved_texts texts.now width moves.now flows.now) result }
{
    let mut place: usize = 0;
    for told in moves {
        write_move(out, texts, width, told, flows_at(flows, place))?;
        place += 1;
    }
    Ok(())
}

/// Writes moves below their heading.
fn write_moved_table<K: Sink>(
    out: &mut K,
    texts: &[Items<u8>],
    moves: &[Move],
    flows: &[Items<FlowSpan>],
) -> Result<(), Failed>
    ensures { WritesText (K.state out.old) (K.state out.new)
        (text.moved_table texts.now moves.now flows.now) result }
{
    let width = width_of(texts, moves);
    write_moved_heading(out, width)?;
    write_moves(out, texts, width, moves, flows)
}

/// Writes what moved, a line each, and below it its flows where they are told.
#[tactic(auto, unfolding(crate::specs::MovesText::moved_section))]
fn write_moved<K: Sink>(
    out: &mut K,
    texts: &[Items<u8>],
    moves: &[Move],
    flows: &[Items<FlowSpan>],
) -> Result<(), Failed>
    ensures { WritesText (K.state out.old) (K.state out.new)
        (text.moved_section texts.now moves.now flows.now) result }
{
    if moves.is_empty() {
        return write_text(out, b"");
    }
    write_moved_table(out, texts, moves, flows)
}

/// Writes the line of what stayed.
fn write_stayed_line<K: Sink>(out: &mut K, texts: &[Items<u8>], told: &Move) -> Result<(), Failed>
    ensures { WritesText (K.state out.old) (K.state out.new)
        (text.stayed_line texts.now told.now) result }
{
    write_numbers(out, told)?;
    write_pieces(out, &[text_at(texts, told.was), b"\n"])
}

/// Writes the lines of what stayed.
fn write_stayed_lines<K: Sink>(
    out: &mut K,
    texts: &[Items<u8>],
    stayed: &[Move],
) -> Result<(), Failed>
    ensures { WritesText (K.state out.old) (K.state out.new)
        (flat_map (text.stayed_line texts.now) stayed.now) result }
{
    for told in stayed {
        write_stayed_line(out, texts, told)?;
    }
    Ok(())
}

/// Writes what stayed, below its heading.
fn write_stayed_table<K: Sink>(
    out: &mut K,
    texts: &[Items<u8>],
    stayed: &[Move],
) -> Result<(), Failed>
    ensures { WritesText (K.state out.old) (K.state out.new)
        (text.stayed_table texts.now stayed.now) result }
{
    write_text(
        out,
        b"\n  records  capture    first     last  then and now\n",
    )?;
    write_stayed_lines(out, texts, stayed)
}

/// Writes what stayed, a line each.
#[tactic(auto, unfolding(crate::specs::MovesText::stayed_section))]
fn write_stayed<K: Sink>(out: &mut K, texts: &[Items<u8>], stayed: &[Move]) -> Result<(), Failed>
    ensures { WritesText (K.state out.old) (K.state out.new)
        (text.stayed_section texts.now stayed.now) result }
{
    if stayed.is_empty() {
        return write_text(out, b"");
    }
    write_stayed_table(out, texts, stayed)
}

/// Writes a count behind its word.
fn write_count<K: Sink>(out: &mut K, word: &[u8], records: u64) -> Result<(), Failed>
    ensures { WritesText (K.state out.old) (K.state out.new)
        (text.count_line word.now records) result }
{
    let mut digits = Buffer::new();
    write_pieces(out, &[word, digits.format(records).as_bytes(), b"\n"])
}

/// Writes how many records moved, how many of them to another verdict, and how many stayed.
fn write_counts<K: Sink>(
    out: &mut K,
    moved: u64,
    other_verdicts: u64,
    stayed: u64,
) -> Result<(), Failed>
    ensures { WritesText (K.state out.old) (K.state out.new)
        (text.counts_text moved other_verdicts stayed) result }
{
    write_count(out, b"moved ", moved)?;
    write_count(out, b"moved to another verdict ", other_verdicts)?;
    write_count(out, b"stayed ", stayed)
}

/// Writes what moved and what stayed, and the flows of what moved where they are told.
pub(crate) fn write_compared<K: Sink>(out: &mut K, compared: &Compared) -> Result<(), Failed>
    ensures { WritesText (K.state out.old) (K.state out.new)
        (text.compared_text compared.now) result }
{
    let texts = compared.texts.as_slice();
    let moved = compared.moves.moved.as_slice();
    let stayed = compared.moves.stayed.as_slice();
    let flows = flows_told(compared);
    write_counts(
        out,
        records_of(moved),
        compared.other_verdicts,
        records_of(stayed),
    )?;
    write_moved(out, texts, moved, flows)?;
    write_stayed(out, texts, stayed)
}

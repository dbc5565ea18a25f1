ghost use Rattle.std.specs.Prelude.{◌≡◌, ◌+◌, ◌≤◌, ◌++◌, ◌∷◌, [], length, codes, decimal};
ghost use Rattle.std.specs.List.{flat_map};
ghost use Rattle.fw_base.specs.Texts.{WritesText};
ghost use Rattle.rule_text.specs.Canonical.{mask_word, protocol_word, spaced_text};
ghost use Rattle.state_texts.specs.StateTexts.{flow_text};
ghost use Rattle.report_texts.specs.AskText as ask;
ghost use Rattle.report_texts.specs.JournalText as text;

use crate::line::{LINE_BYTES, Line, write_around};
use eval_engine::Docket;
use fw_base::{Failed, Name, Sink};
use fw_rule::{LimitMask, has_bit};
use packet_headers::Flow;
use state_asks::{FlowName, Op, Reply, Way};
use state_journal::Entry;

/// The longest name that stands in an ask's line that is composed whole.
const LONGEST_NAME: usize = 100;

/// Writes the hits of a lane's cache.
#[tactic(auto, unfolding(report_texts::specs::JournalText::hits_line))]
fn write_lane_hits<K: Sink>(out: &mut K, lane: u64, hits: u64) -> Result<(), Failed>
    ensures { WritesText (K.state out.old) (K.state out.new) (text.hits_line lane hits) result }
{
    let mut line = Line::new();
    line.put_text(b"\n");
    line.put_number(hits);
    line.put_text(b" hits ");
    line.put_number(lane);
    line.put_text(b"cache ");
    line.write(out)
}

/// Writes the hits of the lanes' caches, in the order of the lanes.
pub(crate) fn write_hits<K: Sink>(out: &mut K, hits: &[u64]) -> Result<(), Failed>
    ensures { WritesText (K.state out.old) (K.state out.new) (text.hits_text 1 hits.now) result }
{
    let mut lane = 1u64;
    for count in hits {
        write_lane_hits(out, lane, *count)?;
        lane += 1;
    }
    Ok(())
}

/// A flow name by its number; nothing where none has it.
fn name_at(names: &[Name], name: u8) -> &[u8]
    ensures { result.now ≡ text.name_numbered names.now name }
{
    match names.get(usize::from(name)) {
        Some(named) => named.bytes(),
        None => b"",
    }
}

/// The name of the flow that is asked for.
fn asked_name<'x>(names: &'x [Name], op: &Op) -> &'x [u8]
    ensures { result.now ≡ ask.asked_name names.now op.now }
{
    match op {
        Op::Lookup { name, .. } => match name {
            FlowName::Any => b"any",
            FlowName::Named(number) => name_at(names, *number),
        },
        Op::Install { name, .. } => name_at(names, *name),
    }
}

#[inline(always)]
fn put_mask(line: &mut Line, mask: LimitMask)
    requires { length line.old + 8 ≤ LINE_BYTES }
    ensures items { line.new ≡ mask_word mask ++ line.old }
    ensures room { length line.new ≤ length line.old + 8 }
{
    match mask {
        LimitMask::SrcAddr => line.put_text(b"src-addr"),
        LimitMask::SrcPort => line.put_text(b"src-port"),
        LimitMask::DstAddr => line.put_text(b"dst-addr"),
        LimitMask::DstPort => line.put_text(b"dst-port"),
    }
}

/// Puts what an install asks for, as far as the name.
#[tactic(auto, unfolding(report_texts::specs::AskText::install_start))]
fn put_install(line: &mut Line, id: u32, limit: Option<(LimitMask, u16)>)
    requires { length line.old + 67 ≤ LINE_BYTES }
    ensures items { line.new ≡ ask.install_start id limit ++ line.old }
    ensures room { length line.new ≤ length line.old + 67 }
{
    match limit {
        None => {
            line.put_text(b" keep :");
            line.put_number(u64::from(id));
            line.put_text(b" install ");
        }
        Some((mask, most)) => {
            line.put_text(b" :");
            line.put_number(u64::from(most));
            line.put_text(b" ");
            put_mask(line, mask);
            line.put_text(b" limit ");
            line.put_number(u64::from(id));
            line.put_text(b" install ");
        }
    }
}

/// Puts what is asked, as far as the name.
fn put_question(line: &mut Line, op: &Op)
    requires { length line.old + 67 ≤ LINE_BYTES }
    ensures items { line.new ≡ ask.question_start op.now ++ line.old }
    ensures room { length line.new ≤ length line.old + 67 }
{
    match op {
        Op::Lookup { .. } => line.put_text(b" lookup :"),
        Op::Install { rule, limit, .. } => put_install(line, rule.id, *limit),
    }
}

/// Puts the protocol behind a space.
#[tactic(auto, unfolding(rule_text::specs::Canonical::protocol_word))]
fn put_protocol(line: &mut Line, protocol: u8)
    requires { length line.old + 21 ≤ LINE_BYTES }
    ensures items { line.new ≡ spaced_text (protocol_word protocol ∷ []) ++ line.old }
    ensures room { length line.new ≤ length line.old + 21 }
{
    match protocol {
        0 => line.put_text(b" ip"),
        1 => line.put_text(b" icmp"),
        6 => line.put_text(b" tcp"),
        17 => line.put_text(b" udp"),
        _ => {
            line.put_number(u64::from(protocol));
            line.put_text(b" ");
        }
    }
}

/// Puts a flow, each part behind a space.
fn put_flow(line: &mut Line, flow: &Flow)
    requires { length line.old + 95 ≤ LINE_BYTES }
    ensures items { line.new ≡ flow_text flow.now ++ line.old }
    ensures room { length line.new ≤ length line.old + 95 }
{
    line.put_number(u64::from(flow.destination_port));
    line.put_text(b" ");
    line.put_address(flow.destination);
    line.put_text(b" ");
    line.put_number(u64::from(flow.source_port));
    line.put_text(b" ");
    line.put_address(flow.source);
    line.put_text(b" ");
    put_protocol(line, flow.protocol);
}

/// Puts the letters of the TCP flags FIN, SYN and RST that are set.
#[inline(always)]
fn put_flags(line: &mut Line, flags: u8)
    requires { length line.old + 3 ≤ LINE_BYTES }
    ensures items { line.new ≡ text.flags_word flags ++ line.old }
    ensures room { length line.new ≤ length line.old + 3 }
{
    let flags = u32::from(flags);
    match (has_bit(flags, 0), has_bit(flags, 1), has_bit(flags, 2)) {
        (false, false, false) => line.put_text(b"-"),
        (true, false, false) => line.put_text(b"F"),
        (false, true, false) => line.put_text(b"S"),
        (true, true, false) => line.put_text(b"FS"),
        (false, false, true) => line.put_text(b"R"),
        (true, false, true) => line.put_text(b"FR"),
        (false, true, true) => line.put_text(b"SR"),
        (true, true, true) => line.put_text(b"FSR"),
    }
}

#[inline(always)]
fn put_way(line: &mut Line, way: Way)
    requires { length line.old + 7 ≤ LINE_BYTES }
    ensures items { line.new ≡ text.way_word way ++ line.old }
    ensures room { length line.new ≤ length line.old + 7 }
{
    match way {
        Way::Forward => line.put_text(b"forward"),
        Way::Reverse => line.put_text(b"reverse"),
    }
}

/// Puts in which direction a state was found, and the rule that made it.
#[inline(always)]
fn put_found(line: &mut Line, way: Way, id: u32)
    requires { line.old ≡ [] }
    ensures items { line.new
        ≡ codes "found " ++ (decimal id ++ (codes " " ++ (text.way_word way ++ codes "\n"))) }
    ensures room { length line.new ≤ 35 }
{
    line.put_text(b"\n");
    put_way(line, way);
    line.put_text(b" ");
    line.put_number(u64::from(id));
    line.put_text(b"found ");
}

/// Puts the reply and the line's end.
#[tactic(auto, unfolding(report_texts::specs::JournalText::reply_end))]
fn put_reply(line: &mut Line, reply: Reply)
    requires { line.old ≡ [] }
    ensures items { line.new ≡ text.reply_end reply }
    ensures room { length line.new ≤ 35 }
{
    match reply {
        Reply::Found(way, rule) => put_found(line, way, rule.id),
        Reply::NotFound => line.put_text(b"notfound\n"),
        Reply::Created => line.put_text(b"created\n"),
        Reply::Exists => line.put_text(b"exists\n"),
        Reply::LimitReached(count) => {
            line.put_text(b"\n");
            line.put_counted(b"limit ", count);
        }
        Reply::TableFull(count) => {
            line.put_text(b"\n");
            line.put_counted(b"full ", count);
        }
    }
}

/// Puts for which record of a lane was asked, and its second.
#[tactic(auto, unfolding(report_texts::specs::JournalText::ask_start))]
fn put_ask_start(line: &mut Line, lane: u32, at: u64, second: u32)
    requires { length line.old + 66 ≤ LINE_BYTES }
    ensures items { line.new ≡ text.ask_start lane at second ++ line.old }
    ensures room { length line.new ≤ length line.old + 66 }
{
    line.put_number(u64::from(second));
    line.put_text(b" ");
    line.put_number(at);
    line.put_text(b".");
    line.put_number(u64::from(lane));
    line.put_text(b"ask ");
}

/// Puts the flags, the reply and the line's end.
#[tactic(auto, unfolding(report_texts::specs::JournalText::ask_end))]
fn put_ask_end(line: &mut Line, flags: u8, reply: Reply)
    requires { line.old ≡ [] }
    ensures items { line.new ≡ text.ask_end flags reply }
    ensures room { length line.new ≤ 40 }
{
    put_reply(line, reply);
    line.put_text(b" ");
    put_flags(line, flags);
    line.put_text(b" ");
}

fn flow_of(op: &Op) -> &Flow
    ensures { result.now ≡ text.flow_of_ask op.now }
{
    match op {
        Op::Lookup { flow, .. } | Op::Install { flow, .. } => flow,
    }
}

/// Puts the line of an ask as far as the name.
#[tactic(auto, unfolding(report_texts::specs::AskText::ask_front))]
fn put_ask_front(line: &mut Line, lane: u32, at: u64, op: &Op)
    requires { length line.old + 133 ≤ LINE_BYTES }
    ensures items { line.new ≡ ask.ask_front lane at op.now ++ line.old }
{
    put_question(line, op);
    put_ask_start(line, lane, at, op.second());
}

/// Puts the line of an ask behind the name.
#[tactic(auto, unfolding(report_texts::specs::AskText::ask_rest))]
fn put_ask_rest(line: &mut Line, op: &Op, reply: Reply)
    ensures items { line.new ≡ ask.ask_rest op.now reply }
    ensures room { length line.new ≤ 135 }
{
    line.clear();
    put_ask_end(line, op.flags(), reply);
    put_flow(line, flow_of(op));
}

/// Writes the line of an ask whose name is long, before and behind which the line is composed.
#[inline(never)]
fn write_long_ask<K: Sink>(
    out: &mut K,
    lane: u32,
    at: u64,
    op: &Op,
    name: &[u8],
    rest: &Line,
) -> Result<(), Failed>
    ensures { WritesText (K.state out.old) (K.state out.new)
        (ask.ask_front lane at op.now ++ (name.now ++ rest.now)) result }
{
    let mut front = Line::new();
    put_ask_front(&mut front, lane, at, op);
    write_around(out, &front, name, rest)
}

/// Writes the line of an ask, behind whose name the line is composed: at once, unless the name is long.
fn write_ask<K: Sink>(
    out: &mut K,
    rest: &mut Line,
    lane: u32,
    at: u64,
    op: &Op,
    name: &[u8],
) -> Result<(), Failed>
    requires { length rest.old ≤ 135 }
    ensures { WritesText (K.state out.old) (K.state out.new)
        (ask.ask_front lane at op.now ++ (name.now ++ rest.old)) result }
{
    if name.len() <= LONGEST_NAME {
        rest.put_text(name);
        put_ask_front(rest, lane, at, op);
        rest.write(out)
    } else {
        write_long_ask(out, lane, at, op, name, rest)
    }
}

/// Writes the line of a publication.
#[tactic(auto, unfolding(report_texts::specs::JournalText::publish_line))]
fn write_publication<K: Sink>(out: &mut K, line: &mut Line, number: u64) -> Result<(), Failed>
    ensures { WritesText (K.state out.old) (K.state out.new) (text.publish_line number) result }
{
    line.clear();
    line.put_text(b"\n");
    line.put_number(number);
    line.put_text(b"publish ");
    line.write(out)
}

fn write_entry<K: Sink>(
    out: &mut K,
    line: &mut Line,
    names: &[Name],
    entry: &Entry,
) -> Result<(), Failed>
    ensures { WritesText (K.state out.old) (K.state out.new)
        (text.entry_line names.now entry.now) result }
{
    match entry {
        Entry::Publish(number) => write_publication(out, line, *number),
        Entry::Ask {
            lane,
            op,
            reply,
            at,
        } => {
            put_ask_rest(line, op, *reply);
            write_ask(out, line, u32::from(*lane), *at, op, asked_name(names, op))
        }
    }
}

fn write_entries<K: Sink>(out: &mut K, names: &[Name], entries: &[Entry]) -> Result<(), Failed>
    ensures { WritesText (K.state out.old) (K.state out.new)
        (flat_map (text.entry_line names.now) entries.now) result }
{
    let mut line = Line::new();
    for entry in entries {
        write_entry(out, &mut line, names, entry)?;
    }
    Ok(())
}

/// Writes a lane's refused entries, and its tracker's word.
#[tactic(auto, unfolding(report_texts::specs::JournalText::lane_line))]
fn write_lane<K: Sink>(out: &mut K, lane: u64, refused: u64, tracker: u64) -> Result<(), Failed>
    ensures { WritesText (K.state out.old) (K.state out.new)
        (text.lane_line lane refused tracker) result }
{
    let mut line = Line::new();
    line.put_text(b"\n");
    line.put_number(tracker);
    line.put_text(b" tracker ");
    line.put_number(refused);
    line.put_text(b" refused ");
    line.put_number(lane);
    line.put_text(b"lane ");
    line.write(out)
}

fn write_lanes<K: Sink>(out: &mut K, dockets: &[Docket], trackers: &[u64]) -> Result<(), Failed>
    ensures { WritesText (K.state out.old) (K.state out.new)
        (text.lanes_text 1 dockets.now trackers.now) result }
{
    let mut lane = 1u64;
    let mut rest = trackers;
    for docket in dockets {
        let Some((tracker, others)) = rest.split_first() else {
            return Ok(());
        };
        write_lane(out, lane, docket.refused(), *tracker)?;
        lane += 1;
        rest = others;
    }
    Ok(())
}

#[tactic(auto, unfolding(report_texts::specs::JournalText::journal_heading))]
fn write_heading<K: Sink>(out: &mut K, entries: usize) -> Result<(), Failed>
    ensures { WritesText (K.state out.old) (K.state out.new) (text.journal_heading entries) result }
{
    let mut line = Line::new();
    line.put_text(b"\n");
    line.put_number(entries as u64);
    line.put_text(b"journal 2 ");
    line.write(out)
}

/// Writes the journal, and what the lanes leave.
pub(crate) fn write_journal<K: Sink>(
    out: &mut K,
    names: &[Name],
    entries: &[Entry],
    dockets: &[Docket],
    trackers: &[u64],
) -> Result<(), Failed>
    ensures { WritesText (K.state out.old) (K.state out.new)
        (text.journal_text names.now entries.now dockets.now trackers.now)
        result }
{
    write_heading(out, entries.len())?;
    write_entries(out, names, entries)?;
    write_lanes(out, dockets, trackers)
}

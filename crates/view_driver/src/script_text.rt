ghost use Rattle.std.specs.Prelude.{◌≡◌, ◌++◌, ◌∷◌, [], flat_map, map, take};
ghost use Rattle.std.specs.List.{list_any};
ghost use Rattle.fw_base.specs.Texts.{WritesText};
ghost use Rattle.view_driver.specs.ReviewText as text;

use crate::moves_text::write_spaces;
use fw_base::{Failed, Sink, write_pieces, write_text};
use ipfw_parser::Kind;
use itoa::Buffer;
use report_page::refusal_words;
use rule_edits::ApplyFault;
use script_review::{Finding, LineFault, Size};

/// What is wrong with a script, and what is odd in one without a fault.
#[derive(Clone, Copy)]
pub(crate) struct Reviewed<'a> {
    pub(crate) faults: &'a [LineFault<'a>],
    pub(crate) findings: &'a [Finding],
}

/// Whether a finding is a fault.
fn is_refused(finding: &Finding) -> bool
    ensures { result ≡ text.is_refused finding.now }
{
    match finding {
        Finding::Refused { .. } | Finding::TooLarge { .. } => true,
        Finding::MeWithoutLocal { .. }
        | Finding::Beaten { .. }
        | Finding::NoSuchInterface { .. }
        | Finding::UnusedTable { .. }
        | Finding::DisabledSet { .. } => false,
    }
}

/// Whether one of the findings is a fault.
fn some_refused(findings: &[Finding]) -> bool
    ensures { result ≡ list_any text.is_refused findings.now }
{
    findings.iter().any(is_refused)
}

/// The status of what was reviewed: 2 where a line is faulty or refused.
#[tactic(auto, unfolding(crate::specs::ReviewText::review_status))]
pub(crate) fn review_status(reviewed: &Reviewed<'_>) -> u8
    ensures { result ≡ text.review_status reviewed.now.faults.now reviewed.now.findings.now }
{
    if !reviewed.faults.is_empty() || some_refused(reviewed.findings) {
        2
    } else {
        0
    }
}

/// Writes a byte of a line: a tab and a printed byte as they are, another as a question mark.
fn write_byte<K: Sink>(out: &mut K, byte: u8) -> Result<(), Failed>
    ensures { WritesText (K.state out.old) (K.state out.new)
        (text.printed_byte byte ∷ []) result }
{
    if byte == b'\t' || (b' ' <= byte && byte <= b'~') {
        write_text(out, &[byte])
    } else {
        write_text(out, b"?")
    }
}

/// Writes a line so that it can be printed.
#[tactic(auto, unfolding(crate::specs::ReviewText::line_text))]
fn write_line<K: Sink>(out: &mut K, line: &[u8]) -> Result<(), Failed>
    ensures { WritesText (K.state out.old) (K.state out.new) (text.line_text line.now) result }
{
    for byte in line {
        write_byte(out, *byte)?;
    }
    Ok(())
}

/// Writes what stands under a byte: a tab under a tab, else a blank.
fn write_under_byte<K: Sink>(out: &mut K, byte: u8) -> Result<(), Failed>
    ensures { WritesText (K.state out.old) (K.state out.new)
        (text.under_byte byte ∷ []) result }
{
    if byte == b'\t' {
        write_text(out, b"\t")
    } else {
        write_text(out, b" ")
    }
}

/// Writes what stands under a front of a line.
fn write_under<K: Sink>(out: &mut K, front: &[u8]) -> Result<(), Failed>
    ensures { WritesText (K.state out.old) (K.state out.new)
        (map text.under_byte front.now) result }
{
    for byte in front {
        write_under_byte(out, *byte)?;
    }
    Ok(())
}

/// The first so many bytes of a line; all of a shorter one.
fn front_of(line: &[u8], count: usize) -> &[u8]
    ensures { result.now ≡ take count line.now }
{
    match line.get(..count) {
        Some(front) => front,
        None => line,
    }
}

/// Writes a mark under the column, from 1.
fn write_mark<K: Sink>(out: &mut K, line: &[u8], column: u32) -> Result<(), Failed>
    ensures { WritesText (K.state out.old) (K.state out.new)
        (text.mark_text line.now column) result }
{
    let before = (column as usize).saturating_sub(1);
    write_under(out, front_of(line, before))?;
    write_spaces(out, before.saturating_sub(line.len()))?;
    write_text(out, b"^\n")
}

/// What kind of a fault it is, in plain words.
fn words_of(kind: Kind) -> &'static [u8]
    ensures { result.now ≡ text.kind_words kind }
{
    match kind {
        Kind::UnknownWord => b"this word isn't known here",
        Kind::MissingWord => b"the line ends where a word is wanted",
        Kind::ExtraWord => b"the command ends before this word",
        Kind::BadNumber => b"a number is wanted here, in one to ten digits",
        Kind::NumberRange => b"this number is out of its range",
        Kind::BadAddress => b"an address is wanted here",
        Kind::BadPrefix => b"a prefix has 0 to 32 bits, of IPv6 0 to 128",
        Kind::BadPort => b"a port from 0 to 65535, or a service, is wanted here",
        Kind::BadRange => b"this range ends before it begins",
        Kind::BadFlag => b"this flag isn't known, or stands there with and without `!`",
        Kind::BadName => b"this can't be a name: it has a wrong byte, or is too long",
        Kind::SecondState =>
            b"a rule makes one state, and this is its second `keep-state` or `limit`",
        Kind::Misplaced => b"this can't stand here",
        Kind::BadByte => b"this byte can't stand in a script",
    }
}

/// Of what a script has too many.
fn size_words(size: Size) -> &'static [u8]
    ensures { result.now ≡ text.size_words size }
{
    match size {
        Size::Bytes => b"the script has more than 1,048,576 bytes",
        Size::Lines => b"the script has more than 65,536 lines",
        Size::LiveCommands => b"the script has more than 4,096 commands behind `live`",
    }
}

/// Writes where a fault stands, and what kind it is.
#[tactic(auto, unfolding(crate::specs::ReviewText::place_text))]
fn write_place<K: Sink>(out: &mut K, fault: &LineFault<'_>) -> Result<(), Failed>
    ensures { WritesText (K.state out.old) (K.state out.new) (text.place_text fault.now) result }
{
    let mut line_digits = Buffer::new();
    let mut column_digits = Buffer::new();
    let line = line_digits.format(fault.line).as_bytes();
    let column = column_digits.format(fault.column).as_bytes();
    let words = words_of(fault.kind);
    write_pieces(
        out,
        &[
            b"line ",
            line,
            b", column ",
            column,
            b": ",
            words,
            b"\n    ",
        ],
    )
}

/// Writes a fault: where it stands and what it is, the line, and a mark under the column.
fn write_fault<K: Sink>(out: &mut K, fault: &LineFault<'_>) -> Result<(), Failed>
    ensures { WritesText (K.state out.old) (K.state out.new) (text.fault_text fault.now) result }
{
    write_place(out, fault)?;
    write_line(out, fault.text)?;
    write_text(out, b"\n    ")?;
    write_mark(out, fault.text, fault.column)
}

/// Writes the number of a script's line, before what is told of it.
#[tactic(auto, unfolding(crate::specs::ReviewText::line_number))]
fn write_line_number<K: Sink>(out: &mut K, line: u32) -> Result<(), Failed>
    ensures { WritesText (K.state out.old) (K.state out.new) (text.line_number line) result }
{
    let mut digits = Buffer::new();
    let number = digits.format(line).as_bytes();
    write_pieces(out, &[b"line ", number, b": "])
}

/// Writes the line of a script, and what is told of it.
fn write_told<K: Sink>(out: &mut K, line: u32, told: &[&[u8]]) -> Result<(), Failed>
    ensures { WritesText (K.state out.old) (K.state out.new)
        (text.told_text line (flat_map (λ piece. piece.now) told.now)) result }
{
    write_line_number(out, line)?;
    write_pieces(out, told)?;
    write_text(out, b"\n")
}

/// Writes a rule that no packet meets.
#[tactic(auto, unfolding(crate::specs::ReviewText::beaten_words))]
fn write_beaten<K: Sink>(out: &mut K, line: u32, number: u16, taker: u32) -> Result<(), Failed>
    ensures { WritesText (K.state out.old) (K.state out.new)
        (text.told_text line (text.beaten_words number taker)) result }
{
    let mut number_digits = Buffer::new();
    let mut taker_digits = Buffer::new();
    let number = number_digits.format(number).as_bytes();
    let taker = taker_digits.format(taker).as_bytes();
    write_told(
        out,
        line,
        &[
            b"rule ",
            number,
            b" meets no packet while that of line ",
            taker,
            b" stands, which takes each before it",
        ],
    )
}

/// Writes a set that is disabled from the start.
#[tactic(auto, unfolding(crate::specs::ReviewText::disabled_text))]
fn write_disabled<K: Sink>(out: &mut K, set: u8, rules: u64) -> Result<(), Failed>
    ensures { WritesText (K.state out.old) (K.state out.new) (text.disabled_text set rules) result }
{
    let mut set_digits = Buffer::new();
    let mut rules_digits = Buffer::new();
    let set = set_digits.format(set).as_bytes();
    let rules = rules_digits.format(rules).as_bytes();
    write_pieces(
        out,
        &[
            b"set ",
            set,
            b" is disabled from the start, rules in it: ",
            rules,
            b"\n",
        ],
    )
}

/// Writes a command that is refused, and why.
fn write_refused<K: Sink>(out: &mut K, line: u32, fault: ApplyFault) -> Result<(), Failed>
    ensures { WritesText (K.state out.old) (K.state out.new)
        (text.finding_text (Finding.Refused line fault)) result }
{
    let words = refusal_words(fault.word().as_bytes());
    write_told(out, line, &[b"refused: ", words])
}

/// Writes a finding.
fn write_finding<K: Sink>(out: &mut K, finding: &Finding) -> Result<(), Failed>
    ensures { WritesText (K.state out.old) (K.state out.new)
        (text.finding_text finding.now) result }
{
    match finding {
        Finding::Refused { line, fault } => write_refused(out, *line, *fault),
        Finding::MeWithoutLocal { line } => write_told(
            out,
            *line,
            &[b"`me` is nobody: no `local` gives the host an address"],
        ),
        Finding::Beaten {
            line,
            number,
            taker,
        } => write_beaten(out, *line, *number, *taker),
        Finding::NoSuchInterface { line, name } => write_told(
            out,
            *line,
            &[b"no capture is of the interface ", name.bytes()],
        ),
        Finding::UnusedTable { line, name } => {
            write_told(out, *line, &[b"no rule names the table ", name.bytes()])
        }
        Finding::DisabledSet { set, rules } => write_disabled(out, *set, *rules),
        Finding::TooLarge { size } => write_pieces(out, &[size_words(*size), b"\n"]),
    }
}

/// Writes the faults of lines.
fn write_faults<K: Sink>(out: &mut K, faults: &[LineFault<'_>]) -> Result<(), Failed>
    ensures { WritesText (K.state out.old) (K.state out.new)
        (flat_map text.fault_text faults.now) result }
{
    for fault in faults {
        write_fault(out, fault)?;
    }
    Ok(())
}

/// Writes the findings.
fn write_findings<K: Sink>(out: &mut K, findings: &[Finding]) -> Result<(), Failed>
    ensures { WritesText (K.state out.old) (K.state out.new)
        (flat_map text.finding_text findings.now) result }
{
    for finding in findings {
        write_finding(out, finding)?;
    }
    Ok(())
}

/// Whether nothing was found.
fn is_clean(reviewed: &Reviewed<'_>) -> bool
    ensures { result ≡ text.is_clean reviewed.now.faults.now reviewed.now.findings.now }
{
    reviewed.faults.is_empty() && reviewed.findings.is_empty()
}

/// Writes the faults, and behind them the findings.
fn write_found<K: Sink>(out: &mut K, reviewed: &Reviewed<'_>) -> Result<(), Failed>
    ensures { WritesText (K.state out.old) (K.state out.new)
        (text.found_text reviewed.now.faults.now reviewed.now.findings.now) result }
{
    write_faults(out, reviewed.faults)?;
    write_findings(out, reviewed.findings)
}

/// Writes what was found.
#[tactic(auto, unfolding(crate::specs::ReviewText::reviewed_text))]
pub(crate) fn write_reviewed<K: Sink>(out: &mut K, reviewed: &Reviewed<'_>) -> Result<(), Failed>
    ensures { WritesText (K.state out.old) (K.state out.new)
        (text.reviewed_text reviewed.now.faults.now reviewed.now.findings.now) result }
{
    if is_clean(reviewed) {
        return write_text(out, b"no fault, and nothing odd\n");
    }
    write_found(out, reviewed)
}

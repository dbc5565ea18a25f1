use addresses6::ADDRESSES6;
use faults::FAULTS;
use fw_base::{Addr, Addr6, Prefix, Prefix6};
use fw_lex::{LexFault, tokens};
use fw_rule::{Rule, RuleDraft};
use ipfw_parser::{Kind, ParseFault, Word, address, parse_rule, prefix, prefix6};
use memory_files::MemorySink;
use rule_text::write_rule;
use rules::RULES;
use std::alloc::Global;
use std::process::Abort;
use std::test::Fail;

mod addresses6;
mod faults;
mod rules;

// Lines with a byte that may not stand, and its column.
const BAD_BYTES: [(&[u8], u32); 5] = [
    (b"add alow\x7f", 9),
    (b"add 1\x00 allow", 6),
    (b"add \x0ballow", 5),
    (b"add all\xc3\xb6w", 8),
    (b"\x1badd", 1),
];

fn lex_fault(fault: LexFault) -> ParseFault {
    match fault {
        LexFault::BadByte { column, .. } => {
            let kind = Kind::BadByte;
            ParseFault::At { column, kind }
        }
        LexFault::OutOfMemory => ParseFault::OutOfMemory,
    }
}

/// The draft of the rule behind the line's first word.
fn read(alloc: Global, line: &[u8]) -> Result<RuleDraft, ParseFault> {
    if line.len() > 1_048_576 {
        return Err(ParseFault::OutOfMemory);
    }
    match tokens(alloc, line) {
        Ok(tokens) => parse_rule(alloc, line, &tokens, tokens.len().min(1)),
        Err(fault) => Err(lex_fault(fault)),
    }
}

/// What is wrong with the line.
fn fault_of(alloc: Global, line: &[u8]) -> Option<ParseFault> {
    read(alloc, line).err()
}

fn rule_of(draft: RuleDraft) -> Rule {
    Rule {
        number: draft.number.unwrap_or(0),
        set: draft.set,
        id: 1,
        counter: 1,
        action: draft.action,
        log: draft.log,
        body: draft.body,
    }
}

fn written(alloc: Global, rule: &Rule) -> Result<MemorySink, Fail> {
    let mut out = MemorySink::new(alloc, 1000)?;
    write_rule(rule, &mut out)?;
    Ok(out)
}

/// The canonical text of the rule that the line adds.
fn text_of(alloc: Global, line: &str) -> Result<MemorySink, Fail> {
    let draft = read(alloc, line.as_bytes())?;
    written(alloc, &rule_of(draft))
}

/// That the rule of the line has this canonical text.
fn assert_text(rt: &impl Abort, alloc: Global, line: &str, want: &str) -> Result<(), Fail> {
    let text = text_of(alloc, line)?;
    assert_eq!(rt; text.written(), want.as_bytes(), "{line}");
    Ok(())
}

/// That the line's fault is printed so.
fn assert_fault(rt: &impl Abort, alloc: Global, line: &str, want: &str) -> Result<(), Fail> {
    let fault = fault_of(alloc, line.as_bytes()).ok_or("a fault")?;
    let found = format!(in alloc; "{fault:?}")?;
    assert_eq!(rt; found.as_str(), want, "{line}");
    Ok(())
}

fn assert_fault_row(rt: &impl Abort, alloc: Global, row: &str) -> Result<(), Fail> {
    let (kind, rest) = row.split_once(' ').ok_or("a kind")?;
    let (column, line) = rest.split_once(' ').ok_or("a column")?;
    let want = format!(in alloc; "At {{ column: {column}, kind: {kind} }}")?;
    assert_fault(rt, alloc, line, &want)
}

#[test]
fn faults_of_lines(rt: HostRuntime) -> Result<(), Fail> {
    let mut rows = 0u32;
    for row in FAULTS.lines() {
        assert_fault_row(&rt, rt.alloc(), row)?;
        rows = rows.saturating_add(1);
    }
    assert_eq!(rt; rows, 206);
    Ok(())
}

#[test]
fn bytes_that_may_not_stand(rt: HostRuntime) -> Result<(), Fail> {
    for (line, column) in BAD_BYTES {
        let kind = Kind::BadByte;
        assert_eq!(rt;
            fault_of(rt.alloc(), line),
            Some(ParseFault::At { column, kind })
        );
    }
    Ok(())
}

/// The same of the rule that the canonical text is.
fn assert_text_again(rt: &impl Abort, alloc: Global, want: &str) -> Result<(), Fail> {
    let again = format!(in alloc; "add {want}")?;
    assert_text(rt, alloc, &again, want)
}

fn assert_rule_row(rt: &impl Abort, alloc: Global, row: &str) -> Result<(), Fail> {
    let (line, want) = row.split_once('|').ok_or("a text")?;
    assert_text(rt, alloc, line, want)?;
    assert_text_again(rt, alloc, want)
}

#[test]
fn canonical_texts_of_rules(rt: HostRuntime) -> Result<(), Fail> {
    let mut rows = 0u32;
    for row in RULES.lines() {
        assert_rule_row(&rt, rt.alloc(), row)?;
        rows = rows.saturating_add(1);
    }
    assert_eq!(rt; rows, 80);
    Ok(())
}

fn assert_address6(rt: &impl Abort, alloc: Global, address: &str, want: &str) -> Result<(), Fail> {
    let line = format!(in alloc; "add 1 allow ip6 from {address} to any")?;
    let want = format!(in alloc; "00001 allow ip6 from {want} to any")?;
    assert_text(rt, alloc, &line, &want)
}

fn assert_address6_row(rt: &impl Abort, alloc: Global, row: &str) -> Result<(), Fail> {
    let (address, want) = row.split_once('|').ok_or("a text")?;
    assert_address6(rt, alloc, address, want)?;
    assert_address6(rt, alloc, want, want)
}

#[test]
fn canonical_texts_of_ipv6_addresses(rt: HostRuntime) -> Result<(), Fail> {
    let mut rows = 0u32;
    for row in ADDRESSES6.lines() {
        assert_address6_row(&rt, rt.alloc(), row)?;
        rows = rows.saturating_add(1);
    }
    assert_eq!(rt; rows, 108);
    Ok(())
}

#[test]
fn misspelt_action_has_its_column(rt: HostRuntime) -> Result<(), Fail> {
    let fault = fault_of(rt.alloc(), b"add 100 alow ip from any to any");
    let kind = Kind::UnknownWord;
    assert_eq!(rt; fault, Some(ParseFault::At { column: 9, kind }));
    Ok(())
}

#[test]
fn not_before_keep_state(rt: HostRuntime) -> Result<(), Fail> {
    let fault = fault_of(
        rt.alloc(),
        b"add allow ip from any to any in not keep-state",
    );
    let kind = Kind::Misplaced;
    assert_eq!(rt; fault, Some(ParseFault::At { column: 33, kind }));
    Ok(())
}

#[test]
fn canonical_text_of_a_rule(rt: HostRuntime) -> Result<(), Fail> {
    let line = "add 5 set 3 pass log logamount 10 6 from not 10.1.2.3/8,me 80,1000-2000 to any not \
                domain in recv em* tcpflags syn,!ack";
    let want = "00005 set 3 allow log logamount 10 tcp from not 10.0.0.0/8,me 80,1000-2000 to any \
                not 53 in recv em* tcpflags syn,!ack";
    assert_text(&rt, rt.alloc(), line, want)
}

fn word(text: &[u8]) -> Word<'_> {
    Word { column: 7, text }
}

fn fault_at_word(kind: Kind) -> ParseFault {
    ParseFault::At { column: 7, kind }
}

fn assert_addresses(rt: &impl Abort) {
    assert_eq!(rt; address(word(b"192.0.2.001")), Ok(Addr(0xc000_0201)));
    assert_eq!(rt;
        address(word(b"192.0.2.256")),
        Err(fault_at_word(Kind::BadAddress))
    );
}

fn assert_prefix(rt: &impl Abort, text: &[u8], want: Option<Prefix>) {
    assert_eq!(rt; prefix(word(text)).ok(), want);
}

fn assert_no_prefix(rt: &impl Abort, text: &[u8], kind: Kind) {
    assert_eq!(rt; prefix(word(text)).err(), Some(fault_at_word(kind)));
}

fn assert_prefix6(rt: &impl Abort, text: &[u8], want: Option<Prefix6>) {
    assert_eq!(rt; prefix6(word(text)).ok(), want);
}

fn assert_no_prefix6(rt: &impl Abort, text: &[u8], kind: Kind) {
    assert_eq!(rt; prefix6(word(text)).err(), Some(fault_at_word(kind)));
}

#[test]
fn addresses_and_prefixes(rt: HostRuntime) -> Result<(), Fail> {
    assert_addresses(&rt);
    assert_prefix(&rt, b"10.9.8.7/8", Prefix::new(Addr(0x0a00_0000), 8));
    assert_prefix(&rt, b"10.9.8.7", Prefix::new(Addr(0x0a09_0807), 32));
    assert_no_prefix(&rt, b"10.9.8.7/33", Kind::BadPrefix);
    let address = Addr6(0x2001_0db8_0000_0000_0000_0000_0000_0001);
    assert_prefix6(&rt, b"2001:db8::1", Prefix6::new(address, 128));
    assert_prefix6(&rt, b"2001:DB8::1/32", Prefix6::new(address, 32));
    assert_no_prefix6(&rt, b"::/129", Kind::BadPrefix);
    assert_no_prefix6(&rt, b"1::2::3", Kind::BadAddress);
    Ok(())
}

#[test]
fn a_fault_prints_its_column_and_what_is_wrong(rt: HostRuntime) -> Result<(), Fail> {
    let kind = Kind::NumberRange;
    let text = format!(in rt.alloc(); "{}", ParseFault::At { column: 12, kind })?;
    assert_eq!(rt; text.as_str(), "column 12: the number is out of its range");
    let text = format!(in rt.alloc(); "{}", ParseFault::OutOfMemory)?;
    assert_eq!(rt; text.as_str(), "out of memory");
    Ok(())
}

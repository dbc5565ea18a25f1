use super::captures::{ETHERNET_HEADER, syns};
use super::{DENIED, assert_seen, replay};
use std::alloc::Global;
use std::process::Abort;
use std::sync::Wait;
use std::test::Fail;
use std::thread::Threads;

/// A named script with the status that its run over one SYN has, and its whole text.
#[derive(Clone, Copy)]
struct Row {
    name: &'static str,
    script: &'static str,
    status: u8,
    text: &'static str,
}

/// Runs the script over a capture, and compares the status and the text.
fn check_over<R: Threads + Wait + Sync + Abort>(
    rt: &R,
    alloc: Global,
    row: &Row,
    capture: &[u8],
) -> Result<(), Fail> {
    let seen = replay(rt, alloc, row.script.as_bytes(), capture, &[])?;
    assert_seen(rt, &seen, row.name, row.status, row.text.as_bytes());
    assert_eq!(rt; seen.sources, 2);
    Ok(())
}

fn check<R: Threads + Wait + Sync + Abort>(
    rt: &R,
    alloc: Global,
    rows: &[Row],
) -> Result<(), Fail> {
    let capture = syns(alloc, 1)?;
    for row in rows {
        check_over(rt, alloc, row, &capture)?;
    }
    Ok(())
}

/// Scripts with a fault, or with a command that is refused.
const REFUSED: [Row; 9] = [
    Row {
        name: "misspelt_action_in_script",
        script: "add 100 alow ip from any to any\n",
        status: 2,
        text: "script line 1 column 9 UnknownWord\n",
    },
    Row {
        name: "not_before_keep_state",
        script: "add allow ip from any to any in not keep-state",
        status: 2,
        text: "script line 1 column 33 Misplaced\n",
    },
    Row {
        name: "last_rule_is_reserved",
        script: "delete 65535",
        status: 2,
        text: "script line 1 ReservedRule\n",
    },
    Row {
        name: "delete_of_no_rule",
        script: "delete 7",
        status: 2,
        text: "script line 1 NoSuchRule\n",
    },
    Row {
        name: "a refused command is told before a listing of no table",
        script: "table none list\ndelete 7",
        status: 2,
        text: "script line 2 NoSuchRule\n",
    },
    Row {
        name: "a listing of no table",
        script: "list\ntable none list",
        status: 2,
        text: "script line 2 NoSuchTable\n",
    },
    Row {
        name: "a fault on a later line is told before a refusal",
        script: "delete 7\nadd allow ip from any to",
        status: 2,
        text: "script line 2 column 25 MissingWord\n",
    },
    Row {
        name: "after before live",
        script: "after 1\nlive",
        status: 2,
        text: "script line 1 column 1 Misplaced\n",
    },
    Row {
        name: "live commands that are refused",
        script: "live\ndelete 7\ntable none list\nlist",
        status: 2,
        text: "1.1 deny 65535 at 1\nend 1 records 1\nrefused line 2 NoSuchRule\nrefused line 3 NoSuchTable\nlist line 4 edition 1\nrules 1\n65535 set 31 deny ip from any to any\neditions 1\nrules 1\n65535 1 40 set 31 deny ip from any to any\nclock 0\nstates 0\n",
    },
];

const ACCEPTED: [Row; 11] = [
    Row {
        name: "canonical_text_of_a_rule",
        script: "add 5 set 3 pass log logamount 10 6 from not 10.1.2.3/8,me 80,1000-2000 to any not domain in recv em* tcpflags syn,!ack\n",
        status: 0,
        text: "1.1 deny 65535 at 1\nend 1 records 1\neditions 1\nrules 2\n00005 0 0 set 3 allow log logamount 10 tcp from not 10.0.0.0/8,me 80,1000-2000 to any not 53 in recv em* tcpflags syn,!ack\n65535 1 40 set 31 deny ip from any to any\nclock 0\nstates 0\n",
    },
    Row {
        name: "pace_in_live_script, which a serial run accepts",
        script: "live\nafter 1\n",
        status: 0,
        text: "1.1 deny 65535 at 1\nend 1 records 1\neditions 1\nrules 1\n65535 1 40 set 31 deny ip from any to any\nclock 0\nstates 0\n",
    },
    Row {
        name: "reset",
        script: "add 100 reset tcp from any to any",
        status: 0,
        text: "1.1 reset 00100 at 1\nend 1 records 1\neditions 1\nrules 2\n00100 1 40 reset tcp from any to any\n65535 0 0 set 31 deny ip from any to any\nclock 0\nstates 0\n",
    },
    Row {
        name: "reject is unreach host",
        script: "add 100 reject ip from any to any",
        status: 0,
        text: "1.1 unreach host 00100 at 1\nend 1 records 1\neditions 1\nrules 2\n00100 1 40 unreach host ip from any to any\n65535 0 0 set 31 deny ip from any to any\nclock 0\nstates 0\n",
    },
    Row {
        name: "unreach with log",
        script: "add 100 unreach 16 log ip from 10.0.0.0/8 to 192.0.2.1",
        status: 0,
        text: "1.1 unreach 16 00100 at 1\nend 1 records 1\neditions 1\nrules 2\n00100 1 40 unreach 16 log ip from 10.0.0.0/8 to 192.0.2.1\n65535 0 0 set 31 deny ip from any to any\nclock 0\nstates 0\n",
    },
    Row {
        name: "a rule of a disabled set",
        script: "add 100 set 2 allow ip from any to any\nset disable 2",
        status: 0,
        text: "1.1 deny 65535 at 1\nend 1 records 1\neditions 1\ndisabled 2\nrules 2\n00100 0 0 set 2 allow ip from any to any\n65535 1 40 set 31 deny ip from any to any\nclock 0\nstates 0\n",
    },
    Row {
        name: "sets that are swapped, of which one is disabled",
        script: "set disable 2\nadd 100 set 1 allow tcp from any to any\nset swap 1 2\nadd 100 deny ip from any to any",
        status: 0,
        text: "1.1 deny 00100 at 1\nend 1 records 1\neditions 1\ndisabled 2\nrules 3\n00100 0 0 set 2 allow tcp from any to any\n00100 1 40 deny ip from any to any\n65535 0 0 set 31 deny ip from any to any\nclock 0\nstates 0\n",
    },
    Row {
        name: "numbers in steps of 100, and a rule that is deleted",
        script: "add allow ip from any to any\nadd 50 deny udp from any to any\ndelete 100\nadd pass ip from 10.0.0.1 to any",
        status: 0,
        text: "1.1 allow 00150 at 1\nend 1 records 1\neditions 1\nrules 3\n00050 0 0 deny udp from any to any\n00150 1 40 allow ip from 10.0.0.1 to any\n65535 0 0 set 31 deny ip from any to any\nclock 0\nstates 0\n",
    },
    Row {
        name: "flush",
        script: "add allow ip from any to any\nflush",
        status: 0,
        text: "1.1 deny 65535 at 1\nend 1 records 1\neditions 1\nrules 1\n65535 1 40 set 31 deny ip from any to any\nclock 0\nstates 0\n",
    },
    Row {
        name: "a table that a later line makes is listed",
        script: "table nets list\n# a later line makes it\ntable nets add 10.1.0.0/16 2\ntable nets add 10.0.0.0/8\ntable nets add 10.1.0.0 7\n",
        status: 0,
        text: "1.1 deny 65535 at 1\nend 1 records 1\ntable nets addr 3 line 1 edition 1\n10.0.0.0/8 0\n10.1.0.0/16 2\n10.1.0.0/32 7\neditions 1\nrules 1\n65535 1 40 set 31 deny ip from any to any\nclock 0\nstates 0\n",
    },
    Row {
        name: "a table of numbers is listed",
        script: "table n create type number\ntable n add 80 1\ntable n add 9 4294967295\ntable n list\nlist",
        status: 0,
        text: "1.1 deny 65535 at 1\nend 1 records 1\ntable n number 2 line 4 edition 1\n9 4294967295\n80 1\nlist line 5 edition 1\nrules 1\n65535 set 31 deny ip from any to any\neditions 1\nrules 1\n65535 1 40 set 31 deny ip from any to any\nclock 0\nstates 0\n",
    },
];

#[test]
fn scripts_by_their_status(rt: HostRuntime) -> Result<(), Fail> {
    check(&rt, rt.alloc(), &REFUSED)?;
    check(&rt, rt.alloc(), &ACCEPTED)
}

const NUMBERED: Row = Row {
    name: "automatic_numbers_and_list",
    script: "add 65434 deny ip from any to any\nadd deny ip from any to any\nadd deny ip from any to any\nlist\n",
    status: 0,
    text: "end 1 records 0\nlist line 4 edition 1\nrules 4\n65434 deny ip from any to any\n65534 deny ip from any to any\n65534 deny ip from any to any\n65535 set 31 deny ip from any to any\neditions 1\nrules 4\n65434 0 0 deny ip from any to any\n65534 0 0 deny ip from any to any\n65534 0 0 deny ip from any to any\n65535 0 0 set 31 deny ip from any to any\nclock 0\nstates 0\n",
};

#[test]
fn automatic_numbers_and_list(rt: HostRuntime) -> Result<(), Fail> {
    check_over(&rt, rt.alloc(), &NUMBERED, &ETHERNET_HEADER)
}

/// A script that is made, for one of the limits.
#[derive(Clone, Copy)]
enum Made {
    /// 64 rules, each with a flow name of its own.
    Names,
    /// A comment of so many bytes.
    Comment(usize),
    /// So many empty lines.
    Lines(usize),
    /// 4,097 listings behind `live`.
    Listings,
}

/// A named script at a limit or past it, with the status that its run over one SYN has, and its whole text.
#[derive(Clone, Copy)]
struct Limit {
    name: &'static str,
    script: Made,
    status: u8,
    text: &'static str,
}

const LIMITS: [Limit; 6] = [
    Limit {
        name: "too_many_names",
        script: Made::Names,
        status: 2,
        text: "script line 64 TooManyNames\n",
    },
    Limit {
        name: "the longest script",
        script: Made::Comment(1_048_576),
        status: 0,
        text: DENIED,
    },
    Limit {
        name: "a script that is too long by a byte",
        script: Made::Comment(1_048_577),
        status: 2,
        text: "script TooLong\n",
    },
    Limit {
        name: "the most lines",
        script: Made::Lines(65_536),
        status: 0,
        text: DENIED,
    },
    Limit {
        name: "a line too many",
        script: Made::Lines(65_537),
        status: 2,
        text: "script TooManyLines\n",
    },
    Limit {
        name: "a live command too many",
        script: Made::Listings,
        status: 2,
        text: "script TooManyLive\n",
    },
];

/// Appends a rule with the flow name of that number.
fn push_named(alloc: Global, script: &mut Vec<u8>, name: usize) -> Result<(), Fail> {
    let line = format!(in alloc; "add check-state :n{name}\n")?;
    script.extend_from_slice(line.as_bytes())?;
    Ok(())
}

fn names(alloc: Global) -> Result<Vec<u8>, Fail> {
    let mut script = Vec::new(alloc);
    for name in 1..65 {
        push_named(alloc, &mut script, name)?;
    }
    Ok(script)
}

fn listings(alloc: Global) -> Result<Vec<u8>, Fail> {
    let mut script = Vec::from_slice(alloc, b"live\n")?;
    for _ in 0..4097 {
        script.extend_from_slice(b"list\n")?;
    }
    Ok(script)
}

fn script_of(alloc: Global, made: Made) -> Result<Vec<u8>, Fail> {
    match made {
        Made::Names => names(alloc),
        Made::Comment(bytes) => Ok(vec![in alloc; b'#'; bytes]?),
        Made::Lines(lines) => Ok(vec![in alloc; b'\n'; lines]?),
        Made::Listings => listings(alloc),
    }
}

fn check_limit<R: Threads + Wait + Sync + Abort>(
    rt: &R,
    alloc: Global,
    capture: &[u8],
    limit: &Limit,
) -> Result<(), Fail> {
    let script = script_of(alloc, limit.script)?;
    let seen = replay(rt, alloc, &script, capture, &[])?;
    assert_seen(rt, &seen, limit.name, limit.status, limit.text.as_bytes());
    Ok(())
}

#[test]
fn scripts_at_their_limits(rt: HostRuntime) -> Result<(), Fail> {
    let capture = syns(rt.alloc(), 1)?;
    for limit in &LIMITS {
        check_limit(&rt, rt.alloc(), &capture, limit)?;
    }
    Ok(())
}

use crate::scripts::printed;
use fw_command::{Pace, ScriptFault, parse_script};
use ipfw_parser::Kind;
use memory_files::MemorySink;
use std::alloc::Global;
use std::process::Abort;
use std::test::Fail;

// A fault's kind, its column and the line.
const FAULTS: &str = "\
UnknownWord 1 alow 100
UnknownWord 1 Add 100 allow ip from any to any
UnknownWord 1 lists
UnknownWord 1 rules
UnknownWord 1 5 allow ip from any to any
UnknownWord 3   sysctls dyn_max=5
UnknownWord 1 locals 10.0.0.1
UnknownWord 1 delete,5
UnknownWord 9 add 100 alow ip from any to any
UnknownWord 9 add set x allow ip from any to any
UnknownWord 12 delete set x
UnknownWord 12 delete set set
UnknownWord 5 set 5
UnknownWord 5 set x
UnknownWord 5 set disabled 1
UnknownWord 5 set Enable 1
UnknownWord 13 set disable x
UnknownWord 15 set disable 1 x
UnknownWord 13 set disable enable 1
UnknownWord 12 set enable x
UnknownWord 14 set enable 1 disable 2
UnknownWord 24 set disable 1 enable 2 y
UnknownWord 14 set enable 1 enable 2
UnknownWord 15 set disable 1 enabled 2
UnknownWord 10 set move x to 1
UnknownWord 10 set move to 1
UnknownWord 12 set move 1 into 2
UnknownWord 12 set move 1 2
UnknownWord 15 set move 1 to x
UnknownWord 15 set move 1 to to
UnknownWord 17 set move rule 5 2
UnknownWord 20 set move rule 5 to x
UnknownWord 10 set swap x 1
UnknownWord 12 set swap 1 x
UnknownWord 9 table t make
UnknownWord 9 table t Create
UnknownWord 21 table t create type ip
UnknownWord 21 table t create type address
UnknownWord 21 table t create type numbers
UnknownWord 8 sysctl dyn_max
UnknownWord 8 sysctl dyn_maxi=5
UnknownWord 8 sysctl =5
UnknownWord 8 sysctl net.inet.ip.fw.=5
UnknownWord 8 sysctl net.inet.ip.fw.net.inet.ip.fw.dyn_max=5
UnknownWord 8 sysctl net.inet.ip.dyn_max=5
UnknownWord 8 sysctl dyn_max:5
UnknownWord 8 sysctl max=x
UnknownWord 8 sysctl DYN_MAX=5
UnknownWord 8 sysctl dyn_keepalive=x x
MissingWord 4 add
MissingWord 8 add 100
MissingWord 7 delete
MissingWord 7 delete # 5
MissingWord 11 delete set
MissingWord 4 set
MissingWord 12 set disable
MissingWord 11 set enable
MissingWord 21 set disable 1 enable
MissingWord 9 set move
MissingWord 11 set move 1
MissingWord 14 set move 1 to
MissingWord 14 set move rule
MissingWord 16 set move rule 7
MissingWord 19 set move rule 7 to
MissingWord 9 set swap
MissingWord 11 set swap 1  
MissingWord 6 table
MissingWord 8 table t
MissingWord 20 table t create type
MissingWord 12 table t add
MissingWord 15 table t delete
MissingWord 13 table t swap
MissingWord 7 sysctl
MissingWord 6 local
MissingWord 8   local \t # none
ExtraWord 7 flush all
ExtraWord 7 flush 1
ExtraWord 6 list 1
ExtraWord 7 list  rules
ExtraWord 14 delete set 3 4
ExtraWord 14 delete set 3 set 4
ExtraWord 17 set move 1 to 2 3
ExtraWord 22 set move rule 5 to 2 x
ExtraWord 14 set swap 1 2 3
ExtraWord 16 table t create x
ExtraWord 16 table t create addr
ExtraWord 26 table t create type addr x
ExtraWord 28 table t create type number type
ExtraWord 17 table t destroy now
ExtraWord 15 table t flush 10.0.0.0/8
ExtraWord 14 table t list x
ExtraWord 26 table t add 10.0.0.0/8 5 6
ExtraWord 27 table t delete 10.0.0.0/8 5
ExtraWord 16 table t swap u v
ExtraWord 18 sysctl dyn_max=5 dyn_max=6
ExtraWord 17 add check-state x
ExtraWord 6 live now
ExtraWord 6 live live
BadNumber 8 delete x
BadNumber 10 delete 1 x
BadNumber 10 delete 1 set 3
BadNumber 8 delete -1
BadNumber 8 delete 12345678901
BadNumber 8 delete 5x
BadNumber 8 delete 10-20
BadNumber 6 zero x
BadNumber 6 zero all
BadNumber 10 zero 1 2 3,4
BadNumber 12 delete set 3x
BadNumber 15 set disable 1 2x
BadNumber 12 set enable 1,2
BadNumber 10 set move 1x to 2
BadNumber 15 set move 1 to 2-3
BadNumber 15 set move rule x to 1
BadNumber 15 set move rule to 1
BadNumber 12 set swap 1 2x
BadNumber 13 table t add x
BadNumber 13 table t add 10/8
BadNumber 13 table t add any
BadNumber 22 table t add 10.0.0.1 x
BadNumber 15 table t add 5 1.5
BadNumber 15 table t add 5 00000000001
BadNumber 16 table t delete here
BadNumber 8 sysctl dyn_max=
BadNumber 8 sysctl dyn_max=1=2
BadNumber 8 sysctl dyn_max=x
BadNumber 8 sysctl net.inet.ip.fw.dyn_syn_lifetime=20s
BadNumber 8 sysctl dyn_max=00000000005
BadNumber 5 add 5x allow ip from any to any
NumberRange 8 delete 0
NumberRange 8 delete 65536
NumberRange 10 delete 1 70000 x
NumberRange 6 zero 0
NumberRange 8 zero 1 65536
NumberRange 12 delete set 32
NumberRange 13 set disable 32
NumberRange 15 set disable 0 99
NumberRange 22 set disable 0 enable 4294967296
NumberRange 15 set enable 31 32
NumberRange 10 set move 32 to 1
NumberRange 10 set move 100 to 1
NumberRange 15 set move 1 to 32
NumberRange 15 set move rule 0 to 1
NumberRange 15 set move rule 65536 to 1
NumberRange 22 set move rule 100 to 32
NumberRange 10 set swap 32 0
NumberRange 12 set swap 0 32
NumberRange 13 table t add 4294967296
NumberRange 22 table t add 10.0.0.1 4294967296
NumberRange 16 table t delete 9999999999
NumberRange 8 sysctl dyn_max=0
NumberRange 8 sysctl dyn_max=65537
NumberRange 8 sysctl dyn_ack_lifetime=0
NumberRange 8 sysctl dyn_ack_lifetime=86401
NumberRange 8 sysctl dyn_syn_lifetime=86401
NumberRange 8 sysctl dyn_fin_lifetime=86401
NumberRange 8 sysctl dyn_rst_lifetime=0
NumberRange 8 sysctl dyn_udp_lifetime=86401
NumberRange 8 sysctl net.inet.ip.fw.dyn_short_lifetime=86401 x
NumberRange 5 add 65536 allow ip from any to any
BadAddress 7 local any
BadAddress 7 local me
BadAddress 7 local 10.0.0.1/8
BadAddress 16 local 10.0.0.1 x
BadAddress 7 local 10.0.0.256
BadAddress 7 local 10.0.0.1,10.0.0.2
BadAddress 13 table t add 10.0.0
BadAddress 13 table t add 10.0.0.1.2
BadAddress 13 table t add 1.5 7
BadAddress 13 table t add 1.2.3/33
BadAddress 16 table t delete a.b
BadAddress 16 table t delete .
BadAddress 19 add allow ip from here to any
BadPrefix 13 table t add 10.0.0.0/33
BadPrefix 13 table t add 10.0.0.0/
BadPrefix 16 table t delete 10.0.0.0/x
BadPrefix 13 table t add 10.0.0.0/8/8 x
BadPrefix 19 add allow ip from 10.0.0.0/40 to any
BadPort 24 add allow tcp from any 70000 to any
BadPort 24 add allow tcp from any x to any
BadPort 31 add allow tcp from any to any 80,x
BadRange 24 add allow tcp from any 90-80 to any
BadRange 31 add allow tcp from any to any 80-79
BadRange 24 add allow udp from any 1,3-2 to any
BadFlag 40 add allow tcp from any to any tcpflags x
BadFlag 40 add allow tcp from any to any tcpflags syn,!syn
BadFlag 40 add allow ip from any to any ipoptions nop
BadName 7 table a,b create
BadName 7 table t! list
BadName 7 table table(t) make
BadName 14 table t swap a/b
BadName 14 table t swap aaaaaaaaaaaaaaaaaaaaaaaaaaaaaaaaaaaaaaaaaaaaaaaaaaaaaaaaaaaaaaaa
BadName 7 table bbbbbbbbbbbbbbbbbbbbbbbbbbbbbbbbbbbbbbbbbbbbbbbbbbbbbbbbbbbbbbbb create
BadName 35 add allow ip from any to any recv eth0:1
SecondState 42 add allow tcp from any to any keep-state keep-state
SecondState 42 add allow tcp from any to any keep-state limit src-addr 2
SecondState 48 add allow tcp from any to any limit src-addr 2 limit dst-addr 2
Misplaced 1 after 5
Misplaced 1 after x
Misplaced 1 after
Misplaced 2  after 5 6
Misplaced 31 add allow tcp from any to any not keep-state
BadNumber 13 table t add ::1 5
BadNumber 16 table t delete 2001:db8::/32
BadAddress 13 table t add 10.0.0.1:80
BadAddress 13 table t add ::ffff:10.0.0.1
BadAddress 13 table t add 10.0.0.0/8:8
BadAddress 16 local 10.0.0.1 ::1
BadAddress 7 local ::1
NumberRange 8 sysctl dyn_keep_states=2
NumberRange 8 sysctl net.inet.ip.fw.dyn_keep_states=10
BadNumber 8 sysctl dyn_keep_states=
BadNumber 8 sysctl dyn_keep_states=yes
UnknownWord 8 sysctl dyn_keep_state=1
ExtraWord 26 sysctl dyn_keep_states=1 1
Misplaced 42 add allow udp from any to any keep-state :any
BadName 17 add check-state :
";

// The same of lines behind `live`.
const LIVE_FAULTS: &str = "\
MissingWord 6 after
MissingWord 7  after # 5
BadNumber 7 after x
BadNumber 7 after -1
BadNumber 7 after 12345678901
BadNumber 7 after 5,6
BadNumber 8 delete x
NumberRange 7 after 33554433
NumberRange 7 after 9999999999
NumberRange 13 set disable 32
ExtraWord 9 after 5 6
ExtraWord 9 after 0 packets
ExtraWord 6 list 5
Misplaced 1 live
Misplaced 1 live now
Misplaced 3   live # again
Misplaced 1 live live
UnknownWord 1 afters 5
UnknownWord 1 Live
UnknownWord 1 before 5
";

/// What is wrong with the script.
fn fault_of(alloc: Global, script: &[u8], pace: Pace) -> Option<ScriptFault> {
    parse_script(alloc, script, pace).err()
}

/// What is printed of the script's fault.
fn printed_fault(alloc: Global, script: &[u8], pace: Pace) -> Result<MemorySink, Fail> {
    let fault = fault_of(alloc, script, pace).ok_or("a fault")?;
    printed(alloc, fault)
}

/// That this is printed of the script's fault.
fn assert_printed(
    rt: &impl Abort,
    alloc: Global,
    script: &[u8],
    pace: Pace,
    want: &[u8],
) -> Result<(), Fail> {
    let text = printed_fault(alloc, script, pace)?;
    assert_eq!(rt; text.written(), want);
    Ok(())
}

/// The same, which names the line where it is not so.
fn assert_printed_of(
    rt: &impl Abort,
    alloc: Global,
    script: &str,
    pace: Pace,
    want: &str,
    line: &str,
) -> Result<(), Fail> {
    let text = printed_fault(alloc, script.as_bytes(), pace)?;
    assert_eq!(rt; text.written(), want.as_bytes(), "{line}");
    Ok(())
}

fn assert_fault_row(rt: &impl Abort, alloc: Global, row: &str) -> Result<(), Fail> {
    let (kind, rest) = row.split_once(' ').ok_or("a kind")?;
    let (column, line) = rest.split_once(' ').ok_or("a column")?;
    let want = format!(in alloc; "script line 1 column {column} {kind}\n")?;
    assert_printed_of(rt, alloc, line, Pace::Serial, &want, line)
}

#[test]
fn faults_of_lines(rt: HostRuntime) -> Result<(), Fail> {
    let mut rows = 0u32;
    for row in FAULTS.lines() {
        assert_fault_row(&rt, rt.alloc(), row)?;
        rows = rows.saturating_add(1);
    }
    assert_eq!(rt; rows, 217);
    Ok(())
}

/// That the line has this fault behind `live`, in a run of either pace.
fn assert_live_fault(rt: &impl Abort, alloc: Global, line: &str, want: &str) -> Result<(), Fail> {
    let script = format!(in alloc; "list\nlive # now\n{line}\nno line")?;
    assert_printed_of(rt, alloc, &script, Pace::Serial, want, line)?;
    assert_printed_of(rt, alloc, &script, Pace::Live, want, line)
}

fn assert_live_fault_row(rt: &impl Abort, alloc: Global, row: &str) -> Result<(), Fail> {
    let (kind, rest) = row.split_once(' ').ok_or("a kind")?;
    let (column, line) = rest.split_once(' ').ok_or("a column")?;
    let want = format!(in alloc; "script line 3 column {column} {kind}\n")?;
    assert_live_fault(rt, alloc, line, &want)
}

#[test]
fn faults_behind_live(rt: HostRuntime) -> Result<(), Fail> {
    for row in LIVE_FAULTS.lines() {
        assert_live_fault_row(&rt, rt.alloc(), row)?;
    }
    Ok(())
}

// Scripts with a byte that may not stand, its line and its column.
const BAD_BYTES: [(&[u8], u32, u32); 6] = [
    (b"list\x01", 1, 5),
    (b"\xc3\xa9", 1, 1),
    (b"delete 5 \x7f # \x01", 1, 10),
    (b"add 5x \xff", 1, 8),
    (b"# \x00\n\n\x0b", 3, 1),
    (b"list\nlist \x00\nlis", 2, 6),
];

#[test]
fn bytes_that_may_not_stand(rt: HostRuntime) -> Result<(), Fail> {
    for (script, line, column) in BAD_BYTES {
        let kind = Kind::BadByte;
        assert_eq!(rt;
            fault_of(rt.alloc(), script, Pace::Serial),
            Some(ScriptFault::Parse { line, column, kind })
        );
    }
    Ok(())
}

#[test]
fn misspelt_action_in_script(rt: HostRuntime) -> Result<(), Fail> {
    let script = b"add 100 alow ip from any to any";
    let want = b"script line 1 column 9 UnknownWord\n";
    assert_printed(&rt, rt.alloc(), script, Pace::Serial, want)
}

#[test]
fn pace_in_live_script(rt: HostRuntime) -> Result<(), Fail> {
    let script = b"live\nafter 1";
    let want = b"script line 2 column 1 PaceInLive\n";
    assert_printed(&rt, rt.alloc(), script, Pace::Live, want)?;
    parse_script(rt.alloc(), script, Pace::Serial)?;
    Ok(())
}

// Scripts with several faults, and what is printed: what stands behind the first fault doesn't matter, and on one
// line the line's own fault is first.
const FIRST_FAULTS: [(&[u8], Pace, &[u8]); 8] = [
    (
        b"lis\n\x01",
        Pace::Serial,
        b"script line 1 column 1 UnknownWord\n",
    ),
    (
        b"\n\nlist\ndelete 0\nlis",
        Pace::Serial,
        b"script line 4 column 8 NumberRange\n",
    ),
    (
        b"live\n  after 1\nlis",
        Pace::Live,
        b"script line 2 column 3 PaceInLive\n",
    ),
    (
        b"live\nafter x\nafter 1",
        Pace::Live,
        b"script line 2 column 7 BadNumber\n",
    ),
    (
        b"live\nlis\nafter 1",
        Pace::Live,
        b"script line 2 column 1 UnknownWord\n",
    ),
    (
        b"after 1\nlive\nafter 1",
        Pace::Live,
        b"script line 1 column 1 Misplaced\n",
    ),
    (
        b"live\nafter 1 2",
        Pace::Live,
        b"script line 2 column 9 ExtraWord\n",
    ),
    (
        b"list # live\nlive\n#live\nlive",
        Pace::Live,
        b"script line 4 column 1 Misplaced\n",
    ),
];

#[test]
fn first_faulty_line_is_told(rt: HostRuntime) -> Result<(), Fail> {
    for (script, pace, want) in FIRST_FAULTS {
        assert_printed(&rt, rt.alloc(), script, pace, want)?;
    }
    Ok(())
}

// Faults, in words and as they are printed.
const IN_WORDS: [(ScriptFault, &str, &str); 6] = [
    (
        ScriptFault::TooLong,
        "the script has more than 1,048,576 bytes",
        "script TooLong\n",
    ),
    (
        ScriptFault::TooManyLines,
        "the script has more than 65,536 lines",
        "script TooManyLines\n",
    ),
    (
        ScriptFault::Parse {
            line: 3,
            column: 5,
            kind: Kind::MissingWord,
        },
        "line 3, column 5: a word is missing",
        "script line 3 column 5 MissingWord\n",
    ),
    (
        ScriptFault::PaceInLive { line: 3, column: 5 },
        "line 3, column 5: `after` can't stand in a live run",
        "script line 3 column 5 PaceInLive\n",
    ),
    (
        ScriptFault::TooManyLive,
        "the script has more than 4,096 commands behind `live`",
        "script TooManyLive\n",
    ),
    (ScriptFault::OutOfMemory, "out of memory", ""),
];

fn assert_in_words(
    rt: &impl Abort,
    alloc: Global,
    fault: ScriptFault,
    words: &str,
) -> Result<(), Fail> {
    let text = format!(in alloc; "{fault}")?;
    assert_eq!(rt; text.as_str(), words);
    Ok(())
}

fn assert_as_printed(
    rt: &impl Abort,
    alloc: Global,
    fault: ScriptFault,
    line: &str,
) -> Result<(), Fail> {
    let text = printed(alloc, fault)?;
    assert_eq!(rt; text.written(), line.as_bytes());
    Ok(())
}

#[test]
fn faults_in_words(rt: HostRuntime) -> Result<(), Fail> {
    for (fault, words, line) in IN_WORDS {
        assert_in_words(&rt, rt.alloc(), fault, words)?;
        assert_as_printed(&rt, rt.alloc(), fault, line)?;
    }
    Ok(())
}

use fw_base::{Addr, Name, Prefix};
use fw_command::{Line, Pace, Script, Step, parse_script};
use fw_rule::{Action, Command, Key, RuleDraft, TableCommand};
use std::alloc::Global;
use std::process::Abort;
use std::test::Fail;

// A line, and the command that it gives.
const COMMANDS: &str = "\
flush|Flush
list|ListRules
  list # all|ListRules
\tflush\t#|Flush
list#x|ListRules
zero|Zero
zero 1|Zero 1
zero 65535 1 1|Zero 65535 1 1
delete 1|Delete 1
delete 007 65535|Delete 7 65535
delete set 0|DeleteSet 0
delete set 31|DeleteSet 31
delete set 008|DeleteSet 8
set disable 1|SetMask 2 0
set disable 0 1 2|SetMask 7 0
set disable 31|SetMask 2147483648 0
set disable 1 1|SetMask 2 0
set enable 3|SetMask 0 8
set enable 31|SetMask 0 2147483648
set disable 1 2 enable 1|SetMask 6 2
set disable 0 enable 31 30|SetMask 1 3221225472
set move 1 to 2|MoveSet 1 2
set move 4 to 4|MoveSet 4 4
set move 31 to 0|MoveSet 31 0
set move rule 100 to 3|MoveRule 100 3
set move rule 65535 to 31|MoveRule 65535 31
set swap 1 2|SwapSets 1 2
set swap 3 3|SwapSets 3 3
set swap 31 0|SwapSets 31 0
table t create|Table t Create Addresses
table t create type addr|Table t Create Addresses
table t create type number|Table t Create Numbers
table a-B_c.9 destroy|Table a-B_c.9 Destroy
table t flush|Table t Clear
table 80 list|Table 80 ListEntries
table t add 10.0.0.1|Table t Add 10.0.0.1/32 0
table t add 10.1.2.3/8 5|Table t Add 10.0.0.0/8 5
table t add 0.0.0.0/0 4294967295|Table t Add 0.0.0.0/0 4294967295
table t add 10.0.0.0/008 007|Table t Add 10.0.0.0/8 7
table t add 1.2.3.4/32 0|Table t Add 1.2.3.4/32 0
table t add 80 1|Table t Add 80 1
table t add 4294967295|Table t Add 4294967295 0
table t delete 10.9.9.9/8|Table t Remove 10.0.0.0/8
table t delete 192.0.2.1|Table t Remove 192.0.2.1/32
table t delete 0|Table t Remove 0
table t swap u|Table t SwapWith u
table table swap swap|Table table SwapWith swap
sysctl dyn_max=1|Sysctl Max 1
sysctl dyn_max=16384|Sysctl Max 16384
sysctl dyn_max=65536|Sysctl Max 65536
sysctl dyn_keep_states=0|Sysctl Keep 0
sysctl net.inet.ip.fw.dyn_keep_states=01|Sysctl Keep 1
sysctl net.inet.ip.fw.dyn_max=100|Sysctl Max 100
sysctl dyn_ack_lifetime=86400|Sysctl Ack 86400
sysctl dyn_syn_lifetime=1|Sysctl Syn 1
sysctl dyn_fin_lifetime=2|Sysctl Fin 2
sysctl dyn_rst_lifetime=3|Sysctl Rst 3
sysctl net.inet.ip.fw.dyn_udp_lifetime=86400|Sysctl Udp 86400
sysctl dyn_short_lifetime=0000000005|Sysctl Short 5
local 10.0.0.1|Local 10.0.0.1
local 10.0.0.2 192.0.2.1 0.0.0.0 255.255.255.255|Local 10.0.0.2 192.0.2.1 0.0.0.0 255.255.255.255
local 010.0.0.001 10.0.0.1|Local 10.0.0.1 10.0.0.1
add 100 allow ip from any to any|Add 100 0 Allow
add 0 set 5 deny log tcp from me to any 80|Add 0 5 Deny
add 65535 set 31 skipto 500 ip from any to any|Add 65535 31 SkipTo(500)
add check-state|Add none 0 CheckState default
add 5 check-state :web|Add 5 0 CheckState web
add set 1 check-state :any # all|Add none 1 CheckState :any
add unreach port udp from any to me|Add none 0 Unreach(3)
";

fn prefix_text(alloc: Global, prefix: Prefix) -> Result<String, Fail> {
    let address = prefix.address();
    let length = prefix.length();
    Ok(format!(in alloc; "{address}/{length}")?)
}

fn key_text(alloc: Global, key: Key) -> Result<String, Fail> {
    match key {
        Key::Net(prefix) => prefix_text(alloc, prefix),
        Key::Number(n) => Ok(format!(in alloc; "{n}")?),
    }
}

fn name_text(bytes: &[u8]) -> Result<&str, Fail> {
    Ok(str::from_utf8(bytes).ok().ok_or("a name of letters")?)
}

fn named_text(alloc: Global, word: &str, name: &Name) -> Result<String, Fail> {
    let name = name_text(name.bytes())?;
    Ok(format!(in alloc; "{word} {name}")?)
}

fn entry_text(alloc: Global, key: Key, value: u32) -> Result<String, Fail> {
    let key = key_text(alloc, key)?;
    Ok(format!(in alloc; "Add {key} {value}")?)
}

fn removal_text(alloc: Global, key: Key) -> Result<String, Fail> {
    let key = key_text(alloc, key)?;
    Ok(format!(in alloc; "Remove {key}")?)
}

fn table_text(alloc: Global, made: &TableCommand) -> Result<String, Fail> {
    match made {
        TableCommand::Create(kind) => Ok(format!(in alloc; "Create {kind:?}")?),
        TableCommand::Destroy => Ok(format!(in alloc; "Destroy")?),
        TableCommand::Add(key, value) => entry_text(alloc, *key, *value),
        TableCommand::Remove(key) => removal_text(alloc, *key),
        TableCommand::Clear => Ok(format!(in alloc; "Clear")?),
        TableCommand::SwapWith(name) => named_text(alloc, "SwapWith", name),
        TableCommand::ListEntries => Ok(format!(in alloc; "ListEntries")?),
    }
}

fn numbers_text(alloc: Global, name: &str, numbers: &[u16]) -> Result<String, Fail> {
    let mut text = format!(in alloc; "{name}")?;
    for number in numbers {
        let word = format!(in alloc; " {number}")?;
        text.push_str(&word)?;
    }
    Ok(text)
}

fn action_text(alloc: Global, action: &Action) -> Result<String, Fail> {
    match action {
        Action::CheckState(Some(name)) => named_text(alloc, "CheckState", name),
        Action::CheckState(None) => Ok(format!(in alloc; "CheckState :any")?),
        told => Ok(format!(in alloc; "{told:?}")?),
    }
}

fn number_text(alloc: Global, number: Option<u16>) -> Result<String, Fail> {
    match number {
        Some(number) => Ok(format!(in alloc; "{number}")?),
        None => Ok(format!(in alloc; "none")?),
    }
}

fn addition_text(alloc: Global, draft: &RuleDraft) -> Result<String, Fail> {
    let number = number_text(alloc, draft.number)?;
    let action = action_text(alloc, &draft.action)?;
    let set = draft.set;
    Ok(format!(in alloc; "Add {number} {set} {action}")?)
}

fn on_table_text(alloc: Global, name: &Name, made: &TableCommand) -> Result<String, Fail> {
    let made = table_text(alloc, made)?;
    let name = name_text(name.bytes())?;
    Ok(format!(in alloc; "Table {name} {made}")?)
}

fn local_text(alloc: Global, addresses: &[Addr]) -> Result<String, Fail> {
    let mut text = format!(in alloc; "Local")?;
    for address in addresses {
        let word = format!(in alloc; " {address}")?;
        text.push_str(&word)?;
    }
    Ok(text)
}

/// A command in words of the tables.
fn command_text(alloc: Global, command: &Command) -> Result<String, Fail> {
    match command {
        Command::Add(draft) => addition_text(alloc, draft),
        Command::Delete(numbers) => numbers_text(alloc, "Delete", numbers.as_slice()),
        Command::DeleteSet(set) => Ok(format!(in alloc; "DeleteSet {set}")?),
        Command::Flush => Ok(format!(in alloc; "Flush")?),
        Command::Zero(numbers) => numbers_text(alloc, "Zero", numbers.as_slice()),
        Command::ListRules => Ok(format!(in alloc; "ListRules")?),
        Command::SetMask { disable, enable } => {
            Ok(format!(in alloc; "SetMask {disable} {enable}")?)
        }
        Command::MoveSet { from, to } => Ok(format!(in alloc; "MoveSet {from} {to}")?),
        Command::MoveRule { number, to } => Ok(format!(in alloc; "MoveRule {number} {to}")?),
        Command::SwapSets { first, second } => {
            Ok(format!(in alloc; "SwapSets {first} {second}")?)
        }
        Command::Table(name, made) => on_table_text(alloc, name, made),
        Command::Sysctl { setting, value } => {
            Ok(format!(in alloc; "Sysctl {setting:?} {value}")?)
        }
        Command::Local(addresses) => local_text(alloc, addresses.as_slice()),
    }
}

fn line_text(alloc: Global, line: &Line) -> Result<String, Fail> {
    let number = line.line;
    let command = command_text(alloc, &line.command)?;
    Ok(format!(in alloc; "{number} {command}")?)
}

/// The words of the script's one command, which stands on its first line and before any `live`.
fn one_command_text(rt: &impl Abort, alloc: Global, script: &Script) -> Result<String, Fail> {
    assert_eq!(rt; script.live.as_slice().len(), 0);
    assert_eq!(rt; script.live_at, None);
    let [found] = script.before.as_slice() else {
        return Err("one command".into());
    };
    assert_eq!(rt; found.line, 1);
    command_text(alloc, &found.command)
}

fn assert_command(rt: &impl Abort, alloc: Global, line: &str, want: &str) -> Result<(), Fail> {
    let script = parse_script(alloc, line.as_bytes(), Pace::Live)?;
    let text = one_command_text(rt, alloc, &script)?;
    assert_eq!(rt; text.as_str(), want, "{line}");
    Ok(())
}

fn assert_command_row(rt: &impl Abort, alloc: Global, row: &str) -> Result<(), Fail> {
    let (line, want) = row.split_once('|').ok_or("a command")?;
    assert_command(rt, alloc, line, want)
}

#[test]
fn commands_of_lines(rt: HostRuntime) -> Result<(), Fail> {
    let mut rows = 0u32;
    for row in COMMANDS.lines() {
        assert_command_row(&rt, rt.alloc(), row)?;
        rows = rows.saturating_add(1);
    }
    assert_eq!(rt; rows, 69);
    Ok(())
}

// A script with `live` on its sixth line.
const LIVE_SCRIPT: &[u8] =
    b"# all\nlocal 10.0.0.2\n\nlist\n \t\r\nlive\r\nafter 5\nflush # now\n\nafter 33554432\nafter 0\nlist";

// What it says, step by step.
const LIVE_STEPS: [&str; 7] = [
    "2 Local 10.0.0.2",
    "4 ListRules",
    "after 5",
    "8 Flush",
    "after 33554432",
    "after 0",
    "12 ListRules",
];

fn step_text(alloc: Global, step: &Step) -> Result<String, Fail> {
    match step {
        Step::Run(line) => line_text(alloc, line),
        Step::After(count) => Ok(format!(in alloc; "after {count}")?),
    }
}

/// The words of the commands before `live`.
fn texts_before(alloc: Global, lines: &[Line]) -> Result<Vec<String>, Fail> {
    let mut texts = Vec::new(alloc);
    for line in lines {
        texts.push(line_text(alloc, line)?)?;
    }
    Ok(texts)
}

/// The words of what stands behind `live`.
fn texts_behind(alloc: Global, steps: &[Step]) -> Result<Vec<String>, Fail> {
    let mut texts = Vec::new(alloc);
    for step in steps {
        texts.push(step_text(alloc, step)?)?;
    }
    Ok(texts)
}

fn assert_texts(rt: &impl Abort, texts: &[String], want: &[&str]) {
    assert_eq!(rt; texts.len(), want.len());
    for (text, want) in texts.iter().zip(want) {
        assert_eq!(rt; text.as_str(), *want);
    }
}

#[test]
fn commands_keep_their_lines(rt: HostRuntime) -> Result<(), Fail> {
    let script = parse_script(rt.alloc(), LIVE_SCRIPT, Pace::Serial)?;
    assert_eq!(rt; script.live_at, Some(6));
    let before = texts_before(rt.alloc(), script.before.as_slice())?;
    assert_texts(&rt, &before, &LIVE_STEPS[..2]);
    let behind = texts_behind(rt.alloc(), script.live.as_slice())?;
    assert_texts(&rt, &behind, &LIVE_STEPS[2..]);
    Ok(())
}

// Scripts that say no command, and the line of their `live`.
const WITHOUT_COMMANDS: [(&[u8], Option<u32>); 5] = [
    (b"", None),
    (b"\n", None),
    (b"# \xff\x00", None),
    (b"live", Some(1)),
    (b"\n\n\tlive\n", Some(3)),
];

fn assert_no_command(
    rt: &impl Abort,
    alloc: Global,
    script: &[u8],
    pace: Pace,
    live_at: Option<u32>,
) -> Result<(), Fail> {
    let read = parse_script(alloc, script, pace)?;
    assert_eq!(rt; read.before.as_slice().len(), 0);
    assert_eq!(rt; read.live.as_slice().len(), 0);
    assert_eq!(rt; read.live_at, live_at);
    Ok(())
}

#[test]
fn scripts_without_commands(rt: HostRuntime) -> Result<(), Fail> {
    for (script, live_at) in WITHOUT_COMMANDS {
        assert_no_command(&rt, rt.alloc(), script, Pace::Serial, live_at)?;
        assert_no_command(&rt, rt.alloc(), script, Pace::Live, live_at)?;
    }
    Ok(())
}

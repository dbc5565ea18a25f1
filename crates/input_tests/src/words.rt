//! Lists of words, each as one text with `|` between the words, and what they come to.
use command_words::{CaptureWord, Invocation, read_words};
use std::alloc::Global;
use std::fmt::Write;
use std::test::Fail;

/// Lists of words that are no command.
const NO_COMMANDS: [&str; 96] = [
    // the first word
    "",
    "help",
    "--help",
    "-h",
    "serial",
    "live",
    "load",
    "Serial|s|in:em0:c",
    "serial |s|in:em0:c",
    "lives|s|in:em0:c",
    "s|in:em0:c",
    "--|serial|s|in:em0:c",
    "--journal|serial|s|in:em0:c",
    // positional words
    "serial|s",
    "serial|in:em0:c",
    "serial||in:em0:c",
    "serial|--||in:em0:c",
    "serial|help",
    "serial|s|-|in:em0:c",
    "serial|s|in:em0:c|x",
    "serial|s|in:em0:c|",
    "live|s|s|in:em0:c",
    "serial|s|in:a:c|in:a:c|in:a:c|in:a:c|in:a:c|in:a:c|in:a:c|in:a:c|in:a:c|in:a:c|in:a:c|in:a:c|in:a:c|in:a:c|in:a:c|in:a:c|in:a:c",
    // the word `--`
    "serial|--",
    "serial|--|--",
    "serial|--|--journal",
    "serial|--|s|--|in:em0:c",
    "serial|s|--|in:em0:c|--",
    "serial|s|in:em0:c|--|--journal",
    // options
    "serial|-s|in:em0:c",
    "serial|--help",
    "serial|-h",
    "live|-V|s|in:em0:c",
    "serial|--version|s|in:em0:c",
    "serial|s|in:em0:c|-x",
    "serial|s|in:em0:c|---",
    "serial|-journal|s|in:em0:c",
    "serial|--journa|s|in:em0:c",
    "serial|--journals|s|in:em0:c",
    "serial|--Journal|s|in:em0:c",
    "serial|--journal=x|s|in:em0:c",
    "serial|--journal=|s|in:em0:c",
    "live|s|in:em0:c|--journal=x",
    "serial|--journal|--journal|s|in:em0:c",
    "serial|--journal|s|in:em0:c|--journal",
    "live|s|--journal|in:em0:c|--journal|--",
    // a cache
    "serial|--cache|s|in:em0:c",
    "serial|--cache|0|s|in:em0:c",
    "serial|--cache=0|s|in:em0:c",
    "serial|--cache=|s|in:em0:c",
    "serial|--cache||s|in:em0:c",
    "serial|--cache|65537|s|in:em0:c",
    "serial|--cache=000001|s|in:em0:c",
    "serial|--cache|+1|s|in:em0:c",
    "serial|--cache|-1|s|in:em0:c",
    "serial|--cache|1|--cache|1|s|in:em0:c",
    "serial|--cache=1|s|in:em0:c|--cache=2",
    "serial|--cache|--|s|in:em0:c",
    "serial|s|in:em0:c|--cache",
    "serial|s|in:em0:c|--cache|--",
    "live|--cache|--journal|1|s|in:em0:c",
    "serial|--caches=1|s|in:em0:c",
    "serial|-cache=1|s|in:em0:c",
    "load|--cache|1|1",
    "load|--cache=1|1",
    // captures
    "serial|s|in:em0:",
    "serial|s|in::c",
    "serial|s|in:em0",
    "serial|s|in",
    "serial|s|:em0:c",
    "serial|s|at:em0:c",
    "serial|s|In:em0:c",
    "serial|s|em0:c",
    "serial|s|in:abcdefghijklmnop:c",
    "serial|s|in:e/0:c",
    "serial|s|in:e 0:c",
    "serial|s|in:\u{e9}:c",
    // loads
    "load|0",
    "load|0000000",
    "load|1000001",
    "load|00000001",
    "load|",
    "load|1x",
    "load|+1",
    "load|--|-1",
    "load|1|2",
    "load|--journal|1",
    "load|1|--journal",
    "load|\u{661}",
    "load|s|in:em0:c",
    "audit|--journal|r|s|in:em0:c",
    "audit|r|s|in:em0:c|--cache|4",
    "audit||s|in:em0:c",
    "audit|r||in:em0:c",
    "audit|r|s",
    "audit|s|in:em0:c",
];

/// Lists of words that are a command, and what they name.
const COMMANDS: [(&str, &str); 41] = [
    ("serial|s|in:em0:c", "Serial false s, In em0 c"),
    ("live|s|out:em0:c", "Live false s, Out em0 c"),
    ("serial|--journal|s|in:em0:c", "Serial true s, In em0 c"),
    ("serial|s|--journal|in:em0:c", "Serial true s, In em0 c"),
    ("live|s|in:em0:c|--journal", "Live true s, In em0 c"),
    ("serial|--journal|--|s|in:em0:c", "Serial true s, In em0 c"),
    ("serial|s|in:em0:c|--journal|--", "Serial true s, In em0 c"),
    (
        "serial|--|--journal|in:em0:c",
        "Serial false --journal, In em0 c",
    ),
    (
        "serial|--journal|--|--journal|in:em0:c",
        "Serial true --journal, In em0 c",
    ),
    ("serial|--|s|in:em0:c", "Serial false s, In em0 c"),
    ("serial|s|--|in:em0:c", "Serial false s, In em0 c"),
    ("serial|s|in:em0:c|--", "Serial false s, In em0 c"),
    ("serial|--|-s|in:em0:c", "Serial false -s, In em0 c"),
    ("serial|--|--|in:em0:c", "Serial false --, In em0 c"),
    ("serial|--|--help|in:em0:c", "Serial false --help, In em0 c"),
    ("serial|-|in:em0:-", "Serial false -, In em0 -"),
    ("serial|help|in:em0:c", "Serial false help, In em0 c"),
    (
        "live|serial|in:live:load",
        "Live false serial, In live load",
    ),
    (
        "serial|in:em0:c|in:em0:c",
        "Serial false in:em0:c, In em0 c",
    ),
    ("serial|s|in:em0:c:d", "Serial false s, In em0 c:d"),
    ("serial|s|in:em0:::", "Serial false s, In em0 ::"),
    ("serial|s|in:em0: ", "Serial false s, In em0  "),
    (
        "serial|s|out:abc.def-ghi_jkl:c",
        "Serial false s, Out abc.def-ghi_jkl c",
    ),
    (
        "serial|s|in:A1:c|out:-:d|in:.:c",
        "Serial false s, In A1 c, Out - d, In . c",
    ),
    (
        "live|s|in:a:1|in:a:2|in:a:3|in:a:4|in:a:5|in:a:6|in:a:7|in:a:8|in:a:9|in:a:10|in:a:11|in:a:12|in:a:13|in:a:14|in:a:15|in:a:16",
        "Live false s, In a 1, In a 2, In a 3, In a 4, In a 5, In a 6, In a 7, In a 8, In a 9, In a 10, In a 11, In a 12, In a 13, In a 14, In a 15, In a 16",
    ),
    (
        "serial|--cache|1|s|in:em0:c",
        "Serial false cache 1 s, In em0 c",
    ),
    (
        "serial|--cache|00005|s|in:em0:c",
        "Serial false cache 5 s, In em0 c",
    ),
    (
        "serial|--cache=65536|s|in:em0:c",
        "Serial false cache 65536 s, In em0 c",
    ),
    (
        "live|s|--cache|4|in:em0:c|--journal",
        "Live true cache 4 s, In em0 c",
    ),
    (
        "serial|s|in:em0:c|--cache=4|--",
        "Serial false cache 4 s, In em0 c",
    ),
    (
        "serial|s|--cache|4|--|in:em0:c",
        "Serial false cache 4 s, In em0 c",
    ),
    (
        "serial|--|--cache|in:em0:c",
        "Serial false --cache, In em0 c",
    ),
    ("load|1", "load 1"),
    ("load|1000000", "load 1000000"),
    ("load|0000001", "load 1"),
    ("load|0999999", "load 999999"),
    ("load|42|--", "load 42"),
    ("load|--|42", "load 42"),
    ("load|--|0100000", "load 100000"),
    ("audit|r|s|in:em0:c", "audit r s, In em0 c"),
    (
        "audit|--|--r|-|out:em0:-|in:e:a:b",
        "audit --r -, Out em0 -, In e a:b",
    ),
];

/// What the words of a text come to.
fn told(alloc: Global, line: &str) -> Result<String, Fail> {
    let mut words = Vec::new(alloc);
    for word in line.split('|') {
        words.push(String::from_str(alloc, word)?)?;
    }
    let mut text = String::new(alloc);
    match read_words(alloc, &words)? {
        None => text.push_str("no command")?,
        Some(Invocation::Load(records)) => write!(text, "load {records}")?,
        Some(
            Invocation::Audit {
                report,
                script,
                captures,
            },
        ) => {
            let (report, script) = (str::from_utf8(report)?, str::from_utf8(script)?);
            write!(text, "audit {report} {script}")?;
            tell_captures(&mut text, &captures)?;
        }
        Some(
            Invocation::Replay {
                mode,
                journal,
                cache,
                script,
                captures,
            },
        ) => {
            write!(text, "{mode:?} {journal} ")?;
            if let Some(verdicts) = cache {
                write!(text, "cache {verdicts} ")?;
            }
            write!(text, "{}", str::from_utf8(script)?)?;
            tell_captures(&mut text, &captures)?;
        }
    }
    Ok(text)
}

fn tell_captures(text: &mut String, captures: &[CaptureWord<'_>]) -> Result<(), Fail> {
    for capture in captures {
        let interface = str::from_utf8(capture.interface)?;
        let name = str::from_utf8(capture.name)?;
        write!(text, ", {:?} {interface} {name}", capture.direction)?;
    }
    Ok(())
}

#[test]
fn words_that_are_no_command(rt: HostRuntime) -> Result<(), Fail> {
    assert!(rt; read_words(rt.alloc(), &[])?.is_none());
    for line in NO_COMMANDS {
        let told = told(rt.alloc(), line)?;
        assert_eq!(rt; told.as_str(), "no command", "{line}");
    }
    Ok(())
}

#[test]
fn words_that_are_a_command(rt: HostRuntime) -> Result<(), Fail> {
    for (line, want) in COMMANDS {
        let told = told(rt.alloc(), line)?;
        assert_eq!(rt; told.as_str(), want, "{line}");
    }
    Ok(())
}

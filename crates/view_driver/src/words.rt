use clap::error::ErrorKind;
use clap::{Arg, Command};
use command_words::{CaptureWord, Invocation, Mode, read_words};
use fw_base::OutOfMemory;
use std::alloc::{AllocError, Global};

/// What is asked for.
#[derive(Drop)]
pub(crate) enum Request<'a> {
    /// What moved from the first report to the second, and the flows in these captures behind them.
    Moves {
        old: &'a [u8],
        new: &'a [u8],
        captures: Vec<CaptureWord<'a>>,
    },
    /// A page that shows a report, what moved to another, and the live states by the script behind the
    /// report.
    Page {
        report: &'a [u8],
        new: Option<&'a [u8]>,
        script: Option<&'a [u8]>,
    },
    /// What is wrong or odd with the script, beside these captures.
    Script {
        script: &'a [u8],
        captures: Vec<CaptureWord<'a>>,
    },
}

/// What the first word asks for.
#[derive(Clone, Copy)]
enum FirstWord {
    Moves,
    Page,
    Script,
}

/// The first word, where it is one that begins a command.
fn first_word(word: &[u8]) -> Option<FirstWord> {
    if word == b"moves".as_slice() {
        Some(FirstWord::Moves)
    } else if word == b"page".as_slice() {
        Some(FirstWord::Page)
    } else if word == b"script".as_slice() {
        Some(FirstWord::Script)
    } else {
        None
    }
}

/// The word by which `ipfw_replay` reads a command of as many names before its captures.
fn word_of_replay(command: &[u8]) -> Option<&'static str> {
    match first_word(command)? {
        FirstWord::Moves => Some("audit"),
        FirstWord::Script => Some("serial"),
        FirstWord::Page => None,
    }
}

/// These words as `ipfw_replay` reads them, whose captures are read there alone; none where the command has no
/// captures.
pub(crate) fn words_of_replay(alloc: Global, words: &[String]) -> Result<Vec<String>, OutOfMemory> {
    let mut read = Vec::new(alloc);
    let Some((command, behind)) = words.split_first() else {
        return Ok(read);
    };
    let Some(word) = word_of_replay(command.as_bytes()) else {
        return Ok(read);
    };
    read.push(String::from_str(alloc, word)?)?;
    for word in behind {
        read.push(word.clone()?)?;
    }
    Ok(read)
}

/// What a command with captures asks for, by its words as `ipfw_replay` reads them.
fn request_with_captures<'a>(
    alloc: Global,
    replay: &'a [String],
) -> Result<Option<Request<'a>>, OutOfMemory> {
    match read_words(alloc, replay)? {
        Some(
            Invocation::Audit {
                report,
                script,
                captures,
            },
        ) => Ok(Some(Request::Moves {
            old: report,
            new: script,
            captures,
        })),
        Some(
            Invocation::Replay {
                mode: Mode::Serial,
                journal: false,
                cache: None,
                script,
                captures,
            },
        ) => Ok(Some(Request::Script { script, captures })),
        _ => Ok(None),
    }
}

/// The command line of each command: positional words, and the option of `page`.
fn command_line<'a>(alloc: Global) -> Result<Command<'a>, AllocError> {
    let positional = Arg::new(alloc, "positional").num_args(0..);
    let script = Arg::new(alloc, "script").long("script");
    Command::new(alloc, "report_view")
        .disable_help_flag(true)
        .arg(script)?
        .arg(positional)
}

/// The page that these words ask for, beside this script.
fn page_request<'a>(words: &[&'a str], script: Option<&'a [u8]>) -> Option<Request<'a>> {
    match words {
        [report] => Some(Request::Page {
            report: report.as_bytes(),
            new: None,
            script,
        }),
        [report, new] => Some(Request::Page {
            report: report.as_bytes(),
            new: Some(new.as_bytes()),
            script,
        }),
        _ => None,
    }
}

/// What moved between the reports that these words name.
fn moves_request<'a>(alloc: Global, words: &[&'a str]) -> Option<Request<'a>> {
    match words {
        [old, new] => Some(Request::Moves {
            old: old.as_bytes(),
            new: new.as_bytes(),
            captures: Vec::new(alloc),
        }),
        _ => None,
    }
}

/// What is wrong or odd with the script that these words name.
fn script_request<'a>(alloc: Global, words: &[&'a str]) -> Option<Request<'a>> {
    match words {
        [script] => Some(Request::Script {
            script: script.as_bytes(),
            captures: Vec::new(alloc),
        }),
        _ => None,
    }
}

/// What these words behind a command ask for, which are no captures, with the script of the option.
fn request_of<'a>(
    alloc: Global,
    command: &[u8],
    words: &[&'a str],
    script: Option<&'a [u8]>,
) -> Option<Request<'a>> {
    match (first_word(command)?, script) {
        (FirstWord::Page, _) => page_request(words, script),
        (FirstWord::Moves, None) => moves_request(alloc, words),
        (FirstWord::Script, None) => script_request(alloc, words),
        (FirstWord::Moves | FirstWord::Script, Some(_)) => None,
    }
}

/// What the words ask for where they name no captures.
fn request_without_captures(
    alloc: Global,
    words: &[String],
) -> Result<Option<Request<'_>>, OutOfMemory> {
    let Some(command) = words.first() else {
        return Ok(None);
    };
    let matches = match command_line(alloc)?.try_get_matches_from(words) {
        Ok(matches) => matches,
        Err(error) => match error.kind() {
            ErrorKind::OutOfMemory => return Err(OutOfMemory),
            _ => return Ok(None),
        },
    };
    let Some(positional) = matches.get_strs("positional") else {
        return Ok(None);
    };
    let script = matches.get_str("script").map(|name| name.as_bytes());
    Ok(request_of(alloc, command.as_bytes(), positional, script))
}

/// What the words ask for, which `replay` has as `ipfw_replay` reads them; `None` where they are no command. Behind
/// `moves OLD NEW` and `script SCRIPT` may stand 1 to 16 captures, each as `ipfw_replay` has it.
pub(crate) fn read_request<'a>(
    alloc: Global,
    words: &'a [String],
    replay: &'a [String],
) -> Result<Option<Request<'a>>, OutOfMemory> {
    if let Some(request) = request_with_captures(alloc, replay)? {
        return Ok(Some(request));
    }
    request_without_captures(alloc, words)
}

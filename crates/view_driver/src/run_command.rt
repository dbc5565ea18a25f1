ghost use Rattle.std.specs.Prelude.{◌≡◌, IfErr, IfOk, OnErr};
ghost use Rattle.fw_base.specs.Faults.{Rose};
ghost use Rattle.view_driver.specs.Run as spec;

use crate::moves_view::show_moves;
use crate::page_view::{show_page, show_page_with_moves};
use crate::script_view::show_script;
use crate::shown::{Shown, show};
use crate::trouble::Trouble;
use crate::trouble_text::trouble_status;
use crate::words::{Request, read_request, words_of_replay};
use fw_base::{Library, Sink};
use replay_setup::{LibraryView, SinkView};
use std::alloc::Global;

/// Shows what is asked for, and answers the status of what was shown.
fn show_request<'a, L: Library, K: Sink>(
    alloc: Global,
    library: &mut L,
    out: &mut K,
    request: &Request<'a>,
) -> Result<u8, Trouble<'a>>
    ensures shown { IfOk result (spec.ShowsWhatItFinds ⟦<K as SinkView>⟧.output
        ⟦<L as LibraryView>⟧.files library.old library.new out.old out.new) }
    ensures cause { IfErr result (spec.ComesToTrouble ⟦<L as LibraryView>⟧.files
        library.old library.new) }
    ensures silent { OnErr result (out.new ≡ out.old) }
{
    match request {
        Request::Moves { old, new, captures } => {
            show_moves(alloc, library, out, (old, new), captures)
        }
        Request::Page {
            report,
            new: None,
            script,
        } => show_page(alloc, library, out, report, *script),
        Request::Page {
            report,
            new: Some(new),
            script,
        } => show_page_with_moves(alloc, library, out, (report, new), *script),
        Request::Script { script, captures } => {
            show_script(alloc, library, out, script, captures)
        }
    }
}

/// Carries out what the words ask for, which `replay` has as `ipfw_replay` reads them, and answers
/// the status of what was shown.
fn show_asked<'a, L: Library, K: Sink>(
    alloc: Global,
    words: &'a [String],
    replay: &'a [String],
    library: &mut L,
    out: &mut K,
) -> Result<u8, Trouble<'a>>
    ensures shown { IfOk result (spec.ShowsWhatItFinds ⟦<K as SinkView>⟧.output
        ⟦<L as LibraryView>⟧.files library.old library.new out.old out.new) }
    ensures cause { IfErr result (spec.ComesToTrouble ⟦<L as LibraryView>⟧.files
        library.old library.new) }
    ensures silent { OnErr result (out.new ≡ out.old) }
{
    match read_request(alloc, words, replay)? {
        Some(request) => show_request(alloc, library, out, &request),
        None => Err(Trouble::Usage),
    }
}

/// Shows what the words ask for, and answers the status: 0; 1 where the words are no command; 2
/// where a text is no report or a script has a fault; 3 where two reports don't have the same
/// captures, captures that are named aren't those of the reports, or one of them has a fault, and
/// where the journal of a report lacks or isn't that of the script; 4 where a name could not be
/// opened or read; 5 where the sink failed; 6 where memory ran out.
pub fn run<L: Library, K: Sink>(alloc: Global, words: &[String], library: &mut L, out: &mut K) -> u8
    // What is shown was found in the texts that were read, and the sink took it: what moved between
    // the records of two reports, with the flows of captures where they are told, or why there is
    // nothing to show. Free are which words ask for what, what a page and a review of a script
    // tell, which report has no journal, and which line of a journal isn't its script's; the tests
    // show those.
    ensures shown { spec.ShowsWhatItFinds ⟦<K as SinkView>⟧.output ⟦<L as LibraryView>⟧.files
        library.old library.new out.old out.new result }
    // The sink failed only where its count of faults rose, and without memory nothing was written.
    ensures status_5_cause { result ≡ 5
        → Rose (K.state out.old).faults (K.state out.new).faults }
    ensures status_6_silent { result ≡ 6 → out.new ≡ out.old }
{
    let Ok(replay) = words_of_replay(alloc, words) else {
        return trouble_status(&Trouble::OutOfMemory);
    };
    match show_asked(alloc, words, &replay, library, out) {
        Ok(status) => status,
        Err(trouble) => show(alloc, out, &Shown::Trouble(trouble)),
    }
}

ghost use Rattle.run_driver.specs.RunReports.{RunsTakeReports};

use fw_base::{Library, Sink};
use replay_setup::{LibraryView, SinkView};

/// What a replay prints, with its journal and without a cache, is a report of which an audit says
/// yes: over a library that tells its list, where `run` keeps a record and its status is at most 3, the
/// text that the sink took is what is printed of a legal record of the script and the captures that
/// stand under its names (`IsReportOf`). In live mode as in serial mode.
pub fn runs_take_reports<L: Library, K: Sink>()
    ensures { RunsTakeReports ⟦<K as SinkView>⟧.output ⟦<L as LibraryView>⟧.files }
{}

ghost use Rattle.std.specs.Prelude.{◌≡◌, ◌<◌, [], All, Some, map, length};
ghost use Rattle.std.specs.Arc.{arc_value};
ghost use Rattle.fw_base.specs.Texts.{WritesText};
ghost use Rattle.state_texts.specs.StateTexts.{states_text};
ghost use Rattle.report_texts.specs.JournalText.{optional_journal};
ghost use Rattle.report_texts.specs.Report as text;

use crate::answer_lines::write_answers;
use crate::docket_lines::write_captures;
use crate::journal_lines::{write_hits, write_journal};
use crate::rule_lines::{write_counted_rules, write_disabled, write_editions};
use counter_book::Tally;
use dyn_states::States;
use eval_engine::Docket;
use fw_base::{Failed, Name, Sink};
use generation_store::Edition;
use report_texts::{Ends, Recorded};
use rule_chain::Config;
use rule_text::WriteFault;
use state_journal::Entry;
use state_texts::write_states;
use std::sync::Arc;

/// The edition that was published last.
pub(crate) fn last_of(editions: &[Arc<Edition>]) -> &Edition
    requires { 0 < length editions.now }
    ensures { text.last_edition (map arc_value editions.now) ≡ Some result.now }
{
    &editions[editions.len() - 1]
}

fn write_live<K: Sink>(out: &mut K, names: &[Name], states: &States) -> Result<(), Failed>
    ensures { WritesText (K.state out.old) (K.state out.new)
        (states_text names.now states.now.object) result }
{
    write_states(states, names, out).map_err(|_| Failed)
}

/// Writes what is told of the last edition's configuration and of the states.
fn write_last<K: Sink>(
    out: &mut K,
    config: &Config,
    tallies: &[Tally],
    states: &States,
) -> Result<(), Failed>
    ensures { WritesText (K.state out.old) (K.state out.new)
        (text.last_text config.now tallies.now states.now.object) result }
{
    write_disabled(out, config.disabled())?;
    write_counted_rules(out, tallies, config.rules())?;
    write_live(out, config.names(), states)
}

/// Writes the journal, where it is asked for.
fn write_optional_journal<K: Sink>(
    out: &mut K,
    journal: bool,
    names: &[Name],
    entries: &[Entry],
    dockets: &[Docket],
    trackers: &[u64],
) -> Result<(), Failed>
    ensures { WritesText (K.state out.old) (K.state out.new)
        (optional_journal journal names.now entries.now dockets.now trackers.now)
        result }
{
    if journal {
        write_journal(out, names, entries, dockets, trackers)
    } else {
        Ok(())
    }
}

/// Writes what the captures' records, the script and the editions come to.
fn write_start<K: Sink>(
    out: &mut K,
    editions: &[Arc<Edition>],
    dockets: &[Docket],
    ends: &Ends,
) -> Result<(), Failed>
    ensures { WritesText (K.state out.old) (K.state out.new)
        (text.start_text (map arc_value editions.now) dockets.now ends.now.captures
        ends.now.answers) result }
{
    write_captures(out, dockets, ends.captures.as_slice())?;
    write_answers(out, editions, ends.answers.as_slice())?;
    write_editions(out, editions.len())
}

/// Writes what follows by the last edition's configuration.
fn write_closing<K: Sink>(
    out: &mut K,
    config: &Config,
    recorded: &Recorded<'_>,
    journal: bool,
) -> Result<(), Failed>
    ensures { WritesText (K.state out.old) (K.state out.new)
        (text.closing_text recorded.now journal config.now) result }
{
    let book = recorded.book;
    write_last(out, config, recorded.tallies, book.states())?;
    write_hits(out, recorded.hits)?;
    write_optional_journal(
        out,
        journal,
        config.names(),
        book.entries(),
        recorded.dockets,
        recorded.trackers,
    )
}

/// Writes the report's sections one after another.
fn write_sections<K: Sink>(
    out: &mut K,
    recorded: &Recorded<'_>,
    ends: &Ends,
    journal: bool,
) -> Result<(), Failed>
    requires { 0 < length recorded.now.editions }
    ensures { WritesText (K.state out.old) (K.state out.new)
        (text.report_text recorded.now ends.now.captures ends.now.answers journal) result }
{
    let config = last_of(recorded.editions).config();
    write_start(out, recorded.editions, recorded.dockets, ends)?;
    write_closing(out, config, recorded, journal)
}

/// Writes the report of a run: of each capture its records' lines, the answers to lines of the script,
/// the last edition's rules with their counts, the live states, the hits of the caches, and the journal
/// where it is asked for. There is an edition. It takes no memory. Where the sink fails, a front of the text
/// was written.
pub fn write_report<K: Sink>(
    recorded: &Recorded<'_>,
    ends: &Ends,
    journal: bool,
    out: &mut K,
) -> Result<(), WriteFault>
    requires { 0 < length recorded.now.editions }
    ensures { WritesText (K.state out.old) (K.state out.new)
        (text.report_text recorded.now ends.now.captures ends.now.answers journal) result }
{
    write_sections(out, recorded, ends, journal).map_err(|_| WriteFault)
}

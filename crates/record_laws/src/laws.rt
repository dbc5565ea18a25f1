//! What holds of every legal record, of every replay and of every report.
ghost use Rattle.record_laws.specs.CaptureOrder.{CapturesKeepTheirOrder};
ghost use Rattle.record_laws.specs.Counters.{CountersAddUp};
ghost use Rattle.record_laws.specs.Dockets.{EditionsNeverFall};
ghost use Rattle.record_laws.specs.Listings.{ListingsNamePublishedEditions};
ghost use Rattle.record_laws.specs.OneReplay.{RecordsAreDetermined, ReplaysAreDetermined, ContentsDetermineReports};
ghost use Rattle.record_laws.specs.VerdictLines.{VerdictLinesAreRecords, ReplaysPrintEachRecord};

use fw_base::Source;

/// The counters of a legal record add up to the hits of its judged packets, packets and bytes, modulo 2^64
/// (ipfw(8), "DESCRIPTION").
pub fn counters_add_up()
    ensures { CountersAddUp }
{}

/// The report of a legal record has as many verdict lines as the captures have records.
pub fn verdict_lines_are_records()
    ensures { VerdictLinesAreRecords }
{}

/// The report of a replay has as many verdict lines as records were read of its captures, whatever the answers to
/// lines of the script.
pub fn replays_print_each_record<S: Source>()
    ensures { ReplaysPrintEachRecord S.left S.faults }
{}

/// Each listing behind `live` names an edition that the journal publishes, and that the report shows.
pub fn listings_name_published_editions<S: Source>()
    ensures { ListingsNamePublishedEditions S.left S.faults }
{}

/// Of two judged packets of a lane the later one isn't judged under an earlier edition.
pub fn editions_never_fall()
    ensures { EditionsNeverFall }
{}

/// In the order of a replay each capture gives all its records, in their order.
pub fn captures_keep_their_order()
    ensures { CapturesKeepTheirOrder }
{}

/// At most one record comes of a first configuration, a script and the records of captures, in the order of the
/// schedule and with the one state object's replies.
pub fn records_are_determined()
    ensures { RecordsAreDetermined }
{}

/// Two replays in the order of the schedule, of one first configuration and one script, that read the same bytes of
/// captures which were taken at the same ports, leave the same record and give the same answers, whatever the captures were read from. Where the
/// same captures were ended by a failing read, they have one report.
pub fn replays_are_determined<S: Source, T: Source>()
    ensures { ReplaysAreDetermined S.left S.faults T.left T.faults }
{}

/// Two replays in the order of the schedule, of one first configuration and one script, over captures that were taken
/// at the same ports and whose sources tell the same bytes, leave the same record, give the same answers and have one report, where no capture
/// was ended by a failing read.
pub fn contents_determine_reports<S: Source, T: Source>()
    ensures { ContentsDetermineReports S.left S.faults T.left T.faults }
{}

ghost use Rattle.report_texts.specs.AskText.{AskLinesAreTheirParts};
ghost use Rattle.report_texts.specs.Lines.{RecordLinesAreRecords};

/// The report has as many lines of a capture's records as the capture has records.
pub fn record_lines_are_records()
    ensures { RecordLinesAreRecords }
{}

/// The line of an ask is what stands before the flow's name, the name, and what stands behind it, in which pieces
/// it is written where the name is long.
pub fn ask_lines_are_their_parts()
    ensures { AskLinesAreTheirParts }
{}

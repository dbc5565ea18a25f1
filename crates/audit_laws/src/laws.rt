ghost use Rattle.audit_laws.specs.Completeness.{ReportsOpen, ReportsTellRecords};
ghost use Rattle.audit_laws.specs.Completeness.{ReportsLeaveNothing, ReportsAreFaultless};
ghost use Rattle.audit_laws.specs.Completeness.{RebuiltRecordsPrintAlike};
ghost use Rattle.audit_laws.specs.Captures.{RecordsAreReported};
ghost use Rattle.audit_laws.specs.Formed.{FormsAreKept, ScriptsAreFormed};

use fw_base::Source;

/// Each script that is read has commands whose numbers are in their ranges, and rules and tables that
/// have the bytes of names, at most 65,536 of them behind `live`.
pub fn scripts_are_formed()
    ensures { ScriptsAreFormed }
{}

/// So names and tables of each configuration that such commands make are in the ranges of their
/// lines.
pub fn forms_are_kept()
    ensures { FormsAreKept }
{}

/// The report of a legal record of a script and of captures of bytes, without a cache, has its lines in
/// their ranges.
pub fn records_are_reported<S: Source>()
    ensures { RecordsAreReported S.left S.faults }
{}

/// What is printed of a legal record passes the first two passes: each line has its form, and the
/// lines of the journal tell the record's own.
pub fn printed_reports_open()
    ensures { ReportsOpen }
{}

/// It passes the third: each record is as the report tells it.
pub fn printed_reports_tell_their_records()
    ensures { ReportsTellRecords }
{}

/// No line of it is left over, and none lacks.
pub fn printed_reports_leave_nothing()
    ensures { ReportsLeaveNothing }
{}

/// So no audit of it beside its script and captures finds a line that is wrong, however many
/// records were met.
pub fn printed_reports_are_faultless()
    ensures { ReportsAreFaultless }
{}

/// It passes the fourth: whatever record is rebuilt from it has this report again.
pub fn rebuilt_records_print_alike()
    ensures { RebuiltRecordsPrintAlike }
{}

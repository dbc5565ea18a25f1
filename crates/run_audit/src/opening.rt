ghost use Rattle.std.specs.Prelude.{◌≡◌, ◌<◌, ◌+◌, ◌^◌, None, Some, List, IfOk, IfErr, map};
ghost use Rattle.std.specs.Arc.{arc_value};
ghost use Rattle.std.specs.List.{AllByRecursion};
ghost use Rattle.capture_tracks.specs.Commands.{lines_outcome};
ghost use Rattle.fw_command.specs.WellFormed.{IsStepInRange};
ghost use Rattle.generation_store.specs.Published.{Published};
ghost use Rattle.run_audit.specs.Audit.{FailsAtOpening, IsOpened};
ghost use Rattle.run_audit.specs.AuditFaults.{IfWrong, NamesLine};
ghost use Rattle.run_audit.specs.Opening.{opening_fault, unformed_line, unlawful_line};
ghost use Rattle.run_audit.specs.ToldReport.{IsTold};

use crate::AuditFault;
use crate::forms::first_unformed;
use crate::publisher::Publisher;
use crate::reading_told::told_report;
use crate::told_report::ToldReport;
use fw_command::Step;
use report_texts::LineAnswer;
use rule_chain::Config;
use state_journal::Book;
use std::alloc::Global;

/// This fault, where each line of a report has a form; else that of the first line that has none,
/// for which the report is read again.
fn with_form(report: &[u8], fault: AuditFault) -> AuditFault
    ensures { (editions : List Published)
        → IfWrong fault (λ line. unformed_line report.now ≡ None
        → unlawful_line editions report.now ≡ Some line)
        → NamesLine (opening_fault editions report.now) result }
{
    match fault {
        AuditFault::OutOfMemory => AuditFault::OutOfMemory,
        AuditFault::Wrong { line } => AuditFault::Wrong {
            line: first_unformed(report).unwrap_or(line),
        },
    }
}

/// What a report tells beside a script whose edition 1 has this configuration and that has these
/// steps behind `live`, and the answers to the script's lines: the form of all lines is tested
/// first, and then the journal. It fails exactly where a line is wrong, with the first such line,
/// or for want of memory.
pub(crate) fn opened_report(
    alloc: Global,
    report: &[u8],
    config: Config,
    steps: &[Step],
) -> Result<(ToldReport, Vec<LineAnswer>), AuditFault>
    requires steps { AllByRecursion IsStepInRange steps.now }
    ensures opened { IfOk result (λ opened. IsOpened config steps.now report.now
        (map arc_value opened.0.editions.items) opened.0.book) }
    ensures told { IfOk result (λ opened. IsTold report.now opened.0) }
    ensures few { IfOk result (λ opened. opened.0.lines + 1 < 2 ^ 64) }
    ensures answered { IfOk result (λ opened.
        opened.1.items ≡ (lines_outcome config steps.now).answers) }
    ensures wrong { IfErr result (λ fault. IfWrong fault (FailsAtOpening config steps.now
        report.now)) }
{
    let (editions, answers) = Publisher::of_steps(alloc, config, steps)?.into_parts();
    match told_report(alloc, report, editions) {
        Ok(told) => Ok((told, answers)),
        Err(fault) => Err(with_form(report, fault)),
    }
}

/// The states with the journal that lines tell beside a script whose edition 1 has this
/// configuration and that has these steps behind `live`. The lines are those of a report or of its
/// journal alone. It fails exactly where a line is wrong, as `Audit::open` does, with the first such
/// line, or for want of memory.
pub fn open_journal(
    alloc: Global,
    lines: &[u8],
    config: Config,
    steps: &[Step],
) -> Result<Book, AuditFault>
    requires steps { AllByRecursion IsStepInRange steps.now }
    ensures opened { IfOk result (λ book. (editions : List Published)
        × IsOpened config steps.now lines.now editions book) }
    ensures wrong { IfErr result (λ fault. IfWrong fault (FailsAtOpening config steps.now
        lines.now)) }
{
    let (told, _) = opened_report(alloc, lines, config, steps)?;
    Ok(told.book)
}

ghost use Rattle.std.specs.Prelude.{◌≡◌, is_some};
ghost use Rattle.report_reading.specs.Lines.{lines_with_ends};
ghost use Rattle.report_reading.specs.Readings.{reading_of};
ghost use Rattle.run_audit.specs.Forms as spec;

use report_reading::{next_line, read_line};

/// Whether a line has the form of some line of a report.
fn is_formed(line: &[u8]) -> bool
    ensures { result ≡ is_some (reading_of line.now) }
{
    read_line(line).is_some()
}

/// The number of the first line of a report that has the form of none; `None` where all have one.
#[tactic(auto, unfolding(crate::specs::Forms::first_unformed))]
pub(crate) fn first_unformed(report: &[u8]) -> Option<u64>
    ensures { result ≡ spec.first_unformed 1 (lines_with_ends report.now) }
{
    let mut rest = report;
    let mut number: u64 = 1;
    loop {
        match next_line(rest) {
            None => return None,
            Some((line, behind)) => {
                if !is_formed(line) {
                    return Some(number);
                }
                rest = behind;
                number += 1;
            }
        }
    }
}

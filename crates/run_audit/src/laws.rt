ghost use Rattle.std.specs.Prelude.{◌≡◌, ℕ, List};
ghost use Rattle.report_reading.specs.Lines.{lines_with_ends};
ghost use Rattle.run_audit.specs.Composition.{TestsFindAll, TestsFindTheFirst, ToldRecordsAreLegal};
ghost use Rattle.run_audit.specs.Comparison.{line_of_first_other, first_other_line};
ghost use Rattle.run_audit.specs.PrintedJournals.{PrintedJournalsPass};

/// The line of the first byte that two texts don't share is the first of their lines that they
/// don't share.
pub fn differences_are_by_lines()
    ensures { (line : ℕ) (written text : List ℕ) → line_of_first_other line written text
        ≡ first_other_line line (lines_with_ends written) (lines_with_ends text) }
{}

/// What is printed of a lawful journal passes an audit's first two passes.
pub fn printed_journals_pass()
    ensures { PrintedJournalsPass }
{}

/// The record that was rebuilt from a report is legal, where the script makes its editions, its
/// journal is lawful beside them, and its records, asks and sections are as the report tells them.
pub fn told_records_are_legal()
    ensures { ToldRecordsAreLegal }
{}

/// The tests of the lines behind the records find the first that is wrong.
pub fn tests_find_the_first()
    ensures { TestsFindTheFirst }
{}

/// Where the tests of the lines behind the records find none, none is wrong.
pub fn tests_find_all()
    ensures { TestsFindAll }
{}

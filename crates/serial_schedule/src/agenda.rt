ghost use Rattle.std.specs.Option.{option_copied};
ghost use Rattle.std.specs.Prelude.{◌≡◌};
ghost use Rattle.serial_schedule.specs.Agenda.{IsNextDue, IsNextLeft};
ghost use Rattle.serial_schedule.specs.Steps.{steps_of};

use fw_command::{Line, Step};

/// The steps behind `live` that are still to come.
#[derive(Drop)]
pub struct Agenda<'a> {
    steps: &'a [Step],
}

impl<'a> Agenda<'a> {
    /// All of these steps.
    pub fn new(steps: &'a [Step]) -> Agenda<'a>
        ensures { steps_of result ≡ steps.now }
    {
        Agenda { steps }
    }

    /// The next line that runs before the next record, where `taken` records were taken so far.
    pub fn next_due(&mut self, taken: u64) -> Option<&'a Line>
        ensures { IsNextDue taken (steps_of self.old) (steps_of self.new) (option_copied result) }
    {
        while let Some((step, rest)) = self.steps.split_first() {
            match step {
                Step::Run(line) => {
                    self.steps = rest;
                    return Some(line);
                }
                Step::After(count) => {
                    if *count > taken {
                        return None;
                    }
                    self.steps = rest;
                }
            }
        }
        None
    }

    /// The next line, whatever it waits for.
    pub fn next_left(&mut self) -> Option<&'a Line>
        ensures { IsNextLeft (steps_of self.old) (steps_of self.new) (option_copied result) }
    {
        while let Some((step, rest)) = self.steps.split_first() {
            self.steps = rest;
            match step {
                Step::Run(line) => return Some(line),
                Step::After(_) => {}
            }
        }
        None
    }
}

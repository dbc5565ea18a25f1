ghost use Rattle.std.specs.Prelude.{◌≡◌, ◌⊎◌, ◌∷◌, [], IfOk};
ghost use Rattle.std.specs.List.{AllByRecursion};
ghost use Rattle.capture_tracks.specs.Commands.{line_answer};
ghost use Rattle.capture_tracks.specs.Listings.{listing_in};
ghost use Rattle.capture_tracks.specs.Operator.{IsListed};
ghost use Rattle.fw_command.specs.Steps.{all_lines};
ghost use Rattle.fw_command.specs.WellFormed.{IsLine, IsStepInRange};
ghost use Rattle.rule_edits.specs.Changing.{IsChanging};
ghost use Rattle.live_replay.specs.Operating.{AnswersLine, Accepts, RefusesLine, RunsLines, lines_of_step};

use capture_tracks::{Listing, answer_listing, listing_of};
use fw_base::{Gate, OutOfMemory};
use fw_command::{Line, Step};
use fw_world::CommitFault;
use report_texts::{Answer, LineAnswer};
use shared_world::{Desk, World};
use std::alloc::Global;
use std::sync::Wait;

/// Who runs the lines behind `live`: the desk of a shared world, and the answers so far.
#[derive(Drop)]
pub(crate) struct Operator {
    pub(crate) desk: Desk,
    pub(crate) answers: Vec<LineAnswer>,
}

impl Operator {
    /// The answer to a listing, by the last edition.
    fn listed(&self, listing: Listing<'_>) -> Result<Answer, OutOfMemory>
        ensures { IfOk result (IsListed self.now.desk.editions (listing_in listing.entry)) }
    {
        let edition = self.desk.number();
        answer_listing(self.desk.config(), edition, listing)
    }

    /// Answers a line.
    fn answer(self, line: u32, answer: Answer) -> Result<Operator, OutOfMemory>
        ensures { IfOk result (λ new. AnswersLine self new (line_answer line answer)) }
    {
        let Operator { desk, mut answers } = self;
        answers.push(LineAnswer { line, answer })?;
        Ok(Operator { desk, answers })
    }

    /// Publishes what the command of a line makes, or answers that it is refused.
    fn commit<R: Wait>(
        self,
        rt: &R,
        alloc: Global,
        world: &World,
        line: &Line,
    ) -> Result<Operator, OutOfMemory>
        requires formed { IsLine line.now }
        requires changing { IsChanging line.now.command }
        requires desk { self.desk.world ≡ world.now }
        ensures { IfOk result (λ new. Accepts self new line.now.command
            ⊎ RefusesLine self new line.now) }
    {
        let Operator { desk, answers } = self;
        let (desk, outcome) = world.commit(rt, alloc, desk, &line.command);
        let operator = Operator { desk, answers };
        match outcome {
            Ok(_number) => Ok(operator),
            Err(CommitFault::Refused(fault)) => operator.answer(line.line, Answer::Refused(fault)),
            Err(CommitFault::OutOfMemory) => Err(OutOfMemory),
        }
    }

    /// Runs a line. The gate is told of a command before it is committed, and not of a listing.
    fn run_line<R: Wait, G: Gate>(
        self,
        rt: &R,
        alloc: Global,
        world: &World,
        gate: &G,
        line: &Line,
    ) -> Result<Operator, OutOfMemory>
        requires formed { IsLine line.now }
        requires desk { self.desk.world ≡ world.now }
        ensures { IfOk result (λ new. RunsLines self new (line.now ∷ [])) }
    {
        match listing_of(&line.command) {
            Some(listing) => {
                let answer = self.listed(listing)?;
                self.answer(line.line, answer)
            }
            None => {
                gate.operator(line.line);
                self.commit(rt, alloc, world, line)
            }
        }
    }

    /// Runs a step. An `after` waits for nothing here: no script of live pace has one.
    fn run_step<R: Wait, G: Gate>(
        self,
        rt: &R,
        alloc: Global,
        world: &World,
        gate: &G,
        step: &Step,
    ) -> Result<Operator, OutOfMemory>
        requires formed { IsStepInRange step.now }
        requires desk { self.desk.world ≡ world.now }
        ensures { IfOk result (λ new. RunsLines self new (lines_of_step step.now)) }
    {
        match step {
            Step::Run(line) => self.run_line(rt, alloc, world, gate, line),
            Step::After(_) => Ok(self),
        }
    }

    /// Runs all steps, in their order.
    pub(crate) fn run_all<R: Wait, G: Gate>(
        self,
        rt: &R,
        alloc: Global,
        world: &World,
        gate: &G,
        steps: &[Step],
    ) -> Result<Operator, OutOfMemory>
        requires formed { AllByRecursion IsStepInRange steps.now }
        requires desk { self.desk.world ≡ world.now }
        ensures { IfOk result (λ new. RunsLines self new (all_lines steps.now)) }
    {
        let mut operator = self;
        let mut rest = steps;
        while let Some((step, behind)) = rest.split_first() {
            operator = operator.run_step(rt, alloc, world, gate, step)?;
            rest = behind;
        }
        Ok(operator)
    }
}

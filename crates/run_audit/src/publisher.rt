ghost use Rattle.std.specs.Prelude.{◌≡◌, ◌++◌, ◌∷◌, [], ◌⊎◌, OnOk, IfOk, length, map};
ghost use Rattle.std.specs.Arc.{arc_value};
ghost use Rattle.std.specs.List.{AllByRecursion};
ghost use Rattle.fw_command.specs.Steps.{all_lines};
ghost use Rattle.fw_command.specs.WellFormed.{IsLine, IsStepInRange};
ghost use Rattle.fw_world.specs.Editions.{IsLastOf};
ghost use Rattle.generation_store.specs.Published.{Published};
ghost use Rattle.rule_chain.specs.Configuration.{Configuration};
ghost use Rattle.rule_edits.specs.Changing.{IsChanging};
ghost use Rattle.capture_tracks.specs.Commands.{Standing, after_line, after_lines, first_standing, line_answer, lines_outcome};
ghost use Rattle.capture_tracks.specs.Listings.{listing_in};
ghost use Rattle.capture_tracks.specs.Operator.{AddsAnswer, AddsEdition, AddsRefusal, IsListed, OperatorStandsFor};

use capture_tracks::{Listing, answer_listing, listing_of};
use fw_base::OutOfMemory;
use fw_command::{Line, Step};
use fw_world::{CommitFault, last_edition, next_edition, store_of};
use generation_store::{Edition, Store};
use report_texts::{Answer, LineAnswer};
use rule_chain::Config;
use std::alloc::Global;
use std::marker::Model;
use std::sync::Arc;

/// The editions that lines behind `live` made so far, and the answers to these lines.
#[derive(Drop)]
pub(crate) struct Publisher {
    store: Store,
    answers: Vec<LineAnswer>,
}

impl Model for Publisher {
    ghost use Rattle.std.specs.Prelude.{◌≤◌, length};
    ghost use Rattle.capture_tracks.specs.Operator.{OperatorValue};

    ghost Value = { OperatorValue };

    ghost view = { λ p. record { editions = p.store.editions; answers = p.answers.items } };

    ghost invariant = { λ p. 1 ≤ length p.store.editions };
}

impl Publisher {
    /// Edition 1 alone, which has this configuration.
    fn new(alloc: Global, config: Config) -> Result<Publisher, OutOfMemory>
        ensures { IfOk result (OperatorStandsFor config (first_standing config)) }
    {
        let edition = Edition::build(alloc, 1, config)?;
        Ok(Publisher {
            store: store_of(alloc, edition)?,
            answers: Vec::new(alloc),
        })
    }

    /// Answers a line.
    fn answer(&mut self, line: u32, answer: Answer) -> Result<(), OutOfMemory>
        ensures { OnOk result (AddsAnswer self.old self.new (line_answer line answer)) }
    {
        self.answers.push(LineAnswer { line, answer })?;
        Ok(())
    }

    /// The configuration of the last edition.
    fn config(&self) -> &Config
        ensures { (edition : Published) × IsLastOf self.now.editions edition
            × (result.now ≡ edition.config) }
    {
        last_edition(self.store.all()).config()
    }

    /// The number of the last edition.
    fn number(&self) -> u64
        ensures { result ≡ length self.now.editions }
    {
        self.store.all().len() as u64
    }

    /// The answer to a listing, by the last edition.
    fn listed(&self, listing: Listing<'_>) -> Result<Answer, OutOfMemory>
        ensures { IfOk result (IsListed self.now.editions (listing_in listing.entry)) }
    {
        let number = self.number();
        answer_listing(self.config(), number, listing)
    }

    /// Adds the next edition, which this command made.
    fn push(&mut self, edition: Arc<Edition>) -> Result<(), OutOfMemory>
        ensures editions { OnOk result (self.new.editions
            ≡ self.old.editions ++ arc_value edition ∷ []) }
        ensures answers { OnOk result (self.new.answers ≡ self.old.answers) }
    {
        self.store.ready()?;
        self.store.push(edition);
        Ok(())
    }

    /// Adds what the command of a line makes, or answers that it is refused.
    fn change(&mut self, alloc: Global, line: &Line) -> Result<(), OutOfMemory>
        requires formed { IsLine line.now }
        requires changing { IsChanging line.now.command }
        ensures { OnOk result (AddsEdition self.old self.new line.now.command
            ⊎ AddsRefusal self.old self.new line.now) }
    {
        match next_edition(alloc, self.store.all(), &line.command) {
            Ok(edition) => self.push(edition),
            Err(CommitFault::Refused(fault)) => self.answer(line.line, Answer::Refused(fault)),
            Err(CommitFault::OutOfMemory) => Err(OutOfMemory),
        }
    }

    /// Runs a line.
    fn run_line(&mut self, alloc: Global, line: &Line) -> Result<(), OutOfMemory>
        requires formed { IsLine line.now }
        ensures { OnOk result ((first : Configuration) (standing : Standing)
            → OperatorStandsFor first standing self.old
            → OperatorStandsFor first (after_line standing line.now) self.new) }
    {
        match listing_of(&line.command) {
            Some(listing) => {
                let answer = self.listed(listing)?;
                self.answer(line.line, answer)
            }
            None => self.change(alloc, line),
        }
    }

    /// Runs the line of a step, if it is one.
    fn run_step(&mut self, alloc: Global, step: &Step) -> Result<(), OutOfMemory>
        requires formed { IsStepInRange step.now }
        ensures { OnOk result ((first : Configuration) (standing : Standing)
            → OperatorStandsFor first standing self.old
            → OperatorStandsFor first (after_lines standing (all_lines (step.now ∷ [])))
            self.new) }
    {
        match step {
            Step::Run(line) => self.run_line(alloc, line),
            Step::After(_) => Ok(()),
        }
    }

    /// Runs the lines among these steps, in their order and whatever they wait for.
    fn run_lines(&mut self, alloc: Global, steps: &[Step]) -> Result<(), OutOfMemory>
        requires formed { AllByRecursion IsStepInRange steps.now }
        ensures { OnOk result ((first : Configuration) (standing : Standing)
            → OperatorStandsFor first standing self.old
            → OperatorStandsFor first (after_lines standing (all_lines steps.now)) self.new) }
    {
        for step in steps {
            self.run_step(alloc, step)?;
        }
        Ok(())
    }

    /// The editions that lines behind `live` make from this configuration on, and the answers to
    /// these lines.
    pub(crate) fn of_steps(
        alloc: Global,
        config: Config,
        steps: &[Step],
    ) -> Result<Publisher, OutOfMemory>
        requires formed { AllByRecursion IsStepInRange steps.now }
        ensures { IfOk result (OperatorStandsFor config (lines_outcome config steps.now)) }
    {
        let mut publisher = Publisher::new(alloc, config)?;
        publisher.run_lines(alloc, steps)?;
        Ok(publisher)
    }

    /// The editions and the answers, taken out.
    pub(crate) fn into_parts(self) -> (Vec<Arc<Edition>>, Vec<LineAnswer>)
        ensures editions { map arc_value result.0.items ≡ self.editions }
        ensures answers { result.1.items ≡ self.answers }
    {
        (self.store.into_all(), self.answers)
    }
}

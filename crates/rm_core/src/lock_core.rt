ghost use Rattle.std.specs.Prelude.{◌≡◌, ◌<◌, ◌≤◌, ◌↔◌, true, false, IsTrue, IfOk, All, map, ◌+◌, ◌^◌};
ghost use Rattle.rm_core.specs.CoreState.{CoreState, core_state_of, with_flags_cleared, opening, MayCome, after, step_answer, Safe, operator_of, IsSeat, processor_of, IsProcessor};

use crate::{Event, Heard, Phase, ProcessorState, Token};
use fw_base::OutOfMemory;
use std::alloc::Global;
use std::marker::Model;

/// The core of a read-mostly lock of 1 to 64 processors and one writer, the operator. Contracts see its
/// state, which is a safe one at every moment. It says which steps may come and what each does; who
/// makes them, in which order and how often, and that anybody waits or is served, is the caller's.
#[derive(Drop)]
pub struct Core {
    number: u64,
    holder: Option<u32>,
    processors: Vec<ProcessorState>,
}

impl Model for Core {
    ghost use Rattle.rm_core.specs.CoreState.{CoreState, core_state_of, IsCore};

    ghost Value = { CoreState };

    ghost view = { λ c. core_state_of c.number c.holder c.processors.items };

    ghost invariant = { λ c. IsCore (core_state_of c.number c.holder c.processors.items) };
}

impl Core {
    /// A new lock: nobody holds the lock behind, and each processor is out and holds its token.
    pub fn new(alloc: Global, processors: u32, number: u64) -> Result<Core, OutOfMemory>
        requires nonempty { 0 < processors }
        requires within { processors ≤ 64 }
        ensures opening { IfOk result (λ core. core ≡ opening processors number) }
        ensures safe { IfOk result Safe }
    {
        Ok(Core {
            number,
            holder: None,
            processors: vec![in alloc; ProcessorState::IDLE; processors as usize]?,
        })
    }

    /// Whether the step may come now. One that names nobody never may. Takes no memory and looks at one
    /// processor, or at each where the operator gives the lock behind back or publishes.
    pub fn allows(&self, event: Event) -> bool
        ensures { IsTrue result ↔ MayCome self.now event }
    {
        match event {
            Event::Raise(number) => self.is_at(number, Phase::Out),
            Event::Check(number) => self.is_at(number, Phase::Raised),
            Event::Lower(number) => self.is_at(number, Phase::Raised)
                || self.is_at(number, Phase::In),
            Event::TakeBack(number) => self.is_seat(number) && self.holder.is_none(),
            Event::GiveBack(number) => self.may_give_back(number),
            Event::Regain(number) => self.is_at(number, Phase::Out) && self.holds(number),
            Event::Revoke(number) => self.may_revoke(number),
            Event::Drain(number) => self.may_drain(number),
            Event::ReadNumber => true,
            Event::Publish => self.holds(self.operator()) && all_drained(&self.processors),
        }
    }

    /// Makes the step, which has to be an allowed one, and answers what it hears. Takes no memory and
    /// writes one field, or each processor's two flags at a publication.
    pub fn step(&mut self, event: Event) -> Heard
        requires { MayCome self.old event }
        ensures after { self.new ≡ after self.old event }
        ensures heard { result ≡ step_answer self.old event }
        ensures safe { Safe self.new }
    {
        advance(
            &mut self.number,
            &mut self.holder,
            &mut self.processors,
            event,
        )
    }

    fn may_give_back(&self, number: u32) -> bool
        ensures { IsTrue result ↔ MayCome self.now (Event.GiveBack number) }
    {
        self.is_seat(number)
            && self.holds(number)
            && (number != self.operator() || none_revoked(&self.processors))
    }

    fn may_revoke(&self, number: u32) -> bool
        ensures { IsTrue result ↔ MayCome self.now (Event.Revoke number) }
    {
        match self.processor(number) {
            Some(processor) => {
                !processor.revoked && self.holds(self.operator()) && self.number < u64::MAX
            }
            None => false,
        }
    }

    fn may_drain(&self, number: u32) -> bool
        ensures { IsTrue result ↔ MayCome self.now (Event.Drain number) }
    {
        match self.processor(number) {
            Some(processor) => processor.revoked && !processor.drained,
            None => false,
        }
    }

    /// The operator's number.
    fn operator(&self) -> u32
        ensures { result ≡ operator_of self.now }
    {
        self.processors.len() as u32 + 1
    }

    /// Whether the number is a processor's or the operator's.
    fn is_seat(&self, number: u32) -> bool
        ensures { IsTrue result ↔ IsSeat self.now number }
    {
        0 < number && number <= self.operator()
    }

    /// Whether this one holds the lock behind.
    fn holds(&self, number: u32) -> bool
        ensures { IsTrue result ↔ (self.now.holder ≡ Some number) }
    {
        self.holder == Some(number)
    }

    fn processor(&self, number: u32) -> Option<ProcessorState>
        ensures { result ≡ processor_of self.now number }
    {
        if number == 0 {
            None
        } else {
            self.processors.get(number as usize - 1).copied()
        }
    }

    /// Whether there is such a processor, and its tracker says this.
    fn is_at(&self, number: u32, phase: Phase) -> bool
        ensures { IsTrue result ↔ IsProcessor self.now number (λ p. p.phase ≡ phase) }
    {
        match self.processor(number) {
            Some(processor) => processor.phase == phase,
            None => false,
        }
    }
}

fn none_revoked(processors: &[ProcessorState]) -> bool
    ensures { IsTrue result ↔ All (λ p. p.revoked ≡ false) processors.now }
{
    processors.iter().all(|processor| !processor.revoked)
}

fn all_drained(processors: &[ProcessorState]) -> bool
    ensures { IsTrue result ↔ All (λ p. p.drained ≡ true) processors.now }
{
    processors.iter().all(|processor| processor.drained)
}

/// Makes the step on the bare fields, which are a safe state again only when it is made.
fn advance(
    published: &mut u64,
    holder: &mut Option<u32>,
    processors: &mut [ProcessorState],
    event: Event,
) -> Heard
    requires allowed { MayCome (core_state_of published.old holder.old processors.old) event }
    requires room { event ≡ Event.Publish → published.old + 1 < 2 ^ 64 }
    ensures after { core_state_of published.new holder.new processors.new
        ≡ after (core_state_of published.old holder.old processors.old) event }
    ensures heard { result
        ≡ step_answer (core_state_of published.old holder.old processors.old) event }
{
    match event {
        Event::Raise(number) => {
            processors[number as usize - 1].phase = Phase::Raised;
            Heard::Nothing
        }
        Event::Check(number) => processors[number as usize - 1].check(),
        Event::Lower(number) => {
            processors[number as usize - 1].phase = Phase::Out;
            Heard::Nothing
        }
        Event::TakeBack(number) => {
            *holder = Some(number);
            Heard::Nothing
        }
        Event::GiveBack(_) => {
            *holder = None;
            Heard::Nothing
        }
        Event::Regain(number) => {
            processors[number as usize - 1].token = Token::Held;
            Heard::Nothing
        }
        Event::Revoke(number) => {
            processors[number as usize - 1].revoke(*published + 1);
            Heard::Nothing
        }
        Event::Drain(number) => processors[number as usize - 1].drain(),
        Event::ReadNumber => Heard::Number(*published),
        Event::Publish => {
            *published += 1;
            end_write(processors);
            Heard::Nothing
        }
    }
}

/// The writer's two sets are empty from now on.
fn end_write(processors: &mut [ProcessorState])
    ensures { processors.new ≡ map with_flags_cleared processors.old }
{
    for processor in processors {
        processor.revoked = false;
        processor.drained = false;
    }
}

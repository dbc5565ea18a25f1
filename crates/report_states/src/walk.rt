ghost use Rattle.std.specs.Prelude.{◌≡◌, ◌≤◌, IfOk, count_by, filter, max};
ghost use Rattle.dyn_states.specs.StateObject.{is_live};
ghost use Rattle.report_states.specs.LiveCounts as spec;
ghost use Rattle.report_states.specs.Walks.{GoesOnAt, IsAt, objects_left};
ghost use Rattle.state_journal.specs.Journal.{IsLawfulFrom, no_states};

use dyn_states::{State, States};
use fw_base::OutOfMemory;
use fw_rule::{MOST_STATES, default_settings};
use state_asks::Facts;
use state_journal::{Book, Entry};
use std::alloc::Global;

/// The states as the entries before leave them, and what is left of their journal.
#[derive(Drop)]
pub(crate) struct Walk<'a> {
    states: States,
    facts: &'a [Facts],
    entries: &'a [Entry],
}

/// Whether the state lives at a second.
fn is_live(second: u64, state: &State) -> bool
    ensures { result ≡ is_live second state.now }
{
    second < state.expiry
}

/// How many of the slots hold a state that lives at a second.
fn count_live(slots: &[State], second: u64) -> usize
    ensures { result ≡ count_by (is_live second) slots.now }
{
    slots.iter().filter(|state| is_live(second, state)).count()
}

impl<'a> Walk<'a> {
    /// No state, before all entries of a journal.
    pub(crate) fn new(alloc: Global, book: &'a Book) -> Result<Walk<'a>, OutOfMemory>
        ensures object { IfOk result (λ walk. walk.states.object ≡ no_states) }
        ensures facts { IfOk result (λ walk. walk.facts.now ≡ book.now.facts) }
        ensures entries { IfOk result (λ walk. walk.entries.now ≡ book.now.entries) }
        ensures room { IfOk result (λ walk. 65536 ≤ walk.states.room) }
        ensures lawful { IfOk result (λ walk. IsLawfulFrom no_states book.now.facts
            book.now.entries) }
    {
        Ok(Walk {
            states: States::open(alloc, MOST_STATES, default_settings())?,
            facts: book.facts(),
            entries: book.entries(),
        })
    }

    /// The clock as this entry leaves it.
    fn clock_after(&self, entry: &Entry) -> u32
        ensures { result
            ≡ (spec.after_entry self.now.states.object self.now.facts.now entry.now).clock }
    {
        match entry {
            Entry::Publish(_) => self.states.clock(),
            Entry::Ask { op, .. } => self.states.clock().max(op.second()),
        }
    }

    /// Takes in an entry.
    fn step(&mut self, entry: &Entry)
        requires room { 65536 ≤ self.old.states.room }
        ensures object { self.new.states.object
            ≡ spec.after_entry self.old.states.object self.old.facts.now entry.now }
        ensures facts { self.new.facts.now ≡ spec.facts_behind self.old.facts.now entry.now }
        ensures entries { self.new.entries.now ≡ self.old.entries.now }
        ensures room { self.new.states.room ≡ self.old.states.room }
    {
        match entry {
            Entry::Publish(_) => {
                if let Some((next, behind)) = self.facts.split_first() {
                    self.states.publish(next);
                    self.facts = behind;
                }
            }
            Entry::Ask { op, .. } => {
                self.states.step(op);
            }
        }
    }

    /// Takes in the entries before a second, and tells the greatest number of states behind one of
    /// them.
    pub(crate) fn pass(&mut self, end: u64) -> usize
        requires room { 65536 ≤ self.old.states.room }
        ensures most { result ≡ spec.most_states (filter (spec.is_before end) (objects_left self.old)) }
        ensures on { GoesOnAt end self.old self.new }
        ensures at { IsAt end self.new }
        ensures room { self.new.states.room ≡ self.old.states.room }
    {
        let mut most: usize = 0;
        while let Some((entry, behind)) = self.entries.split_first() {
            if end <= u64::from(self.clock_after(entry)) {
                return most;
            }
            self.step(entry);
            self.entries = behind;
            most = most.max(self.states.count());
        }
        most
    }

    /// How many states live at a second.
    fn living_at(&self, second: u64) -> usize
        ensures { result ≡ spec.living_at second self.now.states.object }
    {
        count_live(self.states.slots(), second)
    }

    /// Takes in the entries of a column, and tells the greatest number of states that lived at once
    /// in its seconds.
    pub(crate) fn column(&mut self, begin: u64, end: u64) -> usize
        requires room { 65536 ≤ self.old.states.room }
        requires at { IsAt begin self.old }
        ensures most { result
            ≡ spec.most_living begin end self.old.states.object (objects_left self.old) }
        ensures on { GoesOnAt end self.old self.new }
        ensures at { IsAt end self.new }
        ensures room { self.new.states.room ≡ self.old.states.room }
    {
        let before = self.living_at(begin);
        before.max(self.pass(end))
    }
}

ghost use Rattle.std.specs.Prelude.{◌≡◌, ◌≢◌, ℕ, ◌+◌, ◌*◌, ◌<◌, ◌≤◌, ◌^◌, [], ◌∷◌, ◌++◌, true, false, IfOk, IfSome, IfNone, Some, length, filter, count_by, slice_set, take, vec_len, vec_capacity};
ghost use Rattle.std.specs.List.{list_any};
ghost use Rattle.dyn_states.specs.StateObject as object;
ghost use Rattle.state_asks.specs.declared.op.FlowName.TheVariants.{Any, Named};
ghost use Rattle.dyn_states.specs.Lines.{line_at};
ghost use Rattle.dyn_states.specs.ExpiryQueue.{entry_count, entry_room, due_count};
ghost use Rattle.dyn_states.specs.Slots.{is_held, given_up, held_states, slot, no_state, holds_one, IsFirstPlace, earlier_place};
ghost use Rattle.dyn_states.specs.Tallies.{IsTallied};
ghost use Rattle.dyn_states.specs.StateTable.{slots_of, states_of, HasRoom, HasRoomForOne, HasParts, IsStateTable, IsTableBut, IsTouched, AreApart};

use crate::State;
use crate::expiry_queue::ExpiryQueue;
use crate::lines::{Lines, line_of};
use crate::state_rules::{is_considered, take_over};
use crate::tallies::Tallies;
use fw_base::OutOfMemory;
use fw_rule::LimitMask;
use packet_headers::Flow;
use state_asks::{Facts, FlowName, RuleRef};
use std::alloc::Global;

/// So many slots and four for each state there are before the table is compacted, though there be room: so
/// the slots of few states stay in a processor's cache, and each is compacted away once for many installs.
const SPARE_SLOTS: usize = 8_192;

/// The states in slots, in the order of making, with a way from a line to a slot, the expiries in order,
/// and the tallies. A state that is given up leaves its slot, which stands until the table is compacted.
#[derive(Drop)]
pub(crate) struct StateTable {
    slots: Vec<State>,
    lines: Lines,
    queue: ExpiryQueue,
    tallies: Tallies,
    /// How many slots there may be.
    most: usize,
}

impl StateTable {
    /// No state. The memory for so many slots is taken here.
    pub fn open(alloc: Global, most: usize) -> Result<StateTable, OutOfMemory>
        requires { most < 2 ^ 32 }
        ensures none { IfOk result (λ made. slots_of made ≡ []) }
        ensures most { IfOk result (λ made. made.most ≡ most) }
        ensures table { IfOk result IsStateTable }
    {
        Ok(StateTable {
            slots: Vec::with_capacity(alloc, most)?,
            lines: Lines::open(alloc, most)?,
            queue: ExpiryQueue::open(alloc, most)?,
            tallies: Tallies::open(alloc, (most / 2 + SPARE_SLOTS) as u32)?,
            most,
        })
    }

    /// Holds one more state, the last made.
    pub fn hold(&mut self, state: State)
        requires table { IsStateTable self.old }
        requires room { HasRoomForOne self.old }
        requires held { is_held state ≡ true }
        requires first { list_any (object.considers state.flow (Named state.name))
            (states_of self.old) ≡ false }
        ensures slots { slots_of self.new ≡ slots_of self.old ++ state ∷ [] }
        ensures table { IsStateTable self.new }
        ensures most { self.new.most ≡ self.old.most }
    {
        let place = self.slots.len() as u32;
        self.lines.put(line_of(&state.flow, state.name), place);
        self.queue.push(state.expiry, place);
        self.tallies.add(&self.slots, &state);
        self.slots.push_reserved(state);
    }

    /// Gives up the state in that place, which has come up in the queue.
    fn give_up(&mut self, place: usize)
        requires table { IsTableBut self.old place }
        requires place { place < length (slots_of self.old) }
        requires held { is_held (slot (slots_of self.old) place) ≡ true }
        ensures slots { slots_of self.new
            ≡ slice_set (slots_of self.old) place (given_up (slot (slots_of self.old) place)) }
        ensures table { IsStateTable self.new }
        ensures most { self.new.most ≡ self.old.most }
        ensures queue { self.new.queue ≡ self.old.queue }
    {
        self.tallies.take(&self.slots, place);
        self.slots[place] = State {
            expiry: 0,
            ..self.slots[place]
        };
    }

    /// Puts a touched state into its place again.
    pub fn touch(&mut self, place: usize, state: State)
        requires table { IsStateTable self.old }
        requires room { HasRoomForOne self.old }
        requires place { place < length (slots_of self.old) }
        requires held { is_held (slot (slots_of self.old) place) ≡ true }
        requires still { is_held state ≡ true }
        requires same { IsTouched (slot (slots_of self.old) place) state }
        ensures slots { slots_of self.new ≡ slice_set (slots_of self.old) place state }
        ensures table { IsStateTable self.new }
        ensures most { self.new.most ≡ self.old.most }
    {
        let expiry = self.slots[place].expiry;
        self.slots[place] = state;
        if expiry <= state.expiry {
            return;
        }
        self.queue.push(state.expiry, place as u32);
    }

    /// The place of the earliest expiry, if it comes by that second.
    fn next_due(&mut self, clock: u32) -> Option<u32>
        requires { IsStateTable self.old }
        ensures slots { slots_of self.new ≡ slots_of self.old }
        ensures most { self.new.most ≡ self.old.most }
        ensures none { IfNone result (IsStateTable self.new
            × (filter (object.is_live clock) (slots_of self.new) ≡ states_of self.new)) }
        ensures some { IfSome result (λ place. IsTableBut self.new place
            × (entry_count self.new.queue < entry_room self.new.queue)
            × (due_count clock self.new.queue + 1 ≤ due_count clock self.old.queue)) }
    {
        self.queue.pop_due(clock)
    }

    /// Gives up the state in a place that has come up in the queue, if it is dead; one that lives is put
    /// into the queue again.
    fn visit(&mut self, place: u32, clock: u32)
        requires table { IsTableBut self.old place }
        requires room { entry_count self.old.queue < entry_room self.old.queue }
        ensures live { filter (object.is_live clock) (slots_of self.new)
            ≡ filter (object.is_live clock) (slots_of self.old) }
        ensures table { IsStateTable self.new }
        ensures most { self.new.most ≡ self.old.most }
        ensures due { due_count clock self.new.queue ≡ due_count clock self.old.queue }
    {
        if self.slots.len() <= place as usize {
            return;
        }
        let expiry = self.slots[place as usize].expiry;
        if expiry == 0 {
            return;
        }
        if expiry <= u64::from(clock) {
            self.give_up(place as usize);
            return;
        }
        self.queue.push(expiry, place);
    }

    /// Gives up each state that is dead at that second.
    pub fn retire_due(&mut self, clock: u32)
        requires { IsStateTable self.old }
        ensures states { states_of self.new ≡ filter (object.is_live clock) (states_of self.old) }
        ensures count { length (states_of self.new) ≤ length (states_of self.old) }
        ensures table { IsStateTable self.new }
        ensures most { self.new.most ≡ self.old.most }
    {
        while let Some(place) = self.next_due(clock) {
            self.visit(place, clock);
        }
    }

    /// Takes the state in that place into the lines and the queue, behind those before it.
    fn enter(&mut self, place: usize)
        requires parts { HasParts (take place (slots_of self.old)) self.old }
        requires room { HasRoom self.old }
        requires queue { entry_count self.old.queue ≤ place }
        requires place { place < length (slots_of self.old) }
        requires held { is_held (slot (slots_of self.old) place) ≡ true }
        requires first { list_any
            (object.considers (slot (slots_of self.old) place).flow
            (Named (slot (slots_of self.old) place).name))
            (held_states (take place (slots_of self.old))) ≡ false }
        ensures parts { HasParts (take (place + 1) (slots_of self.old)) self.new }
        ensures room { HasRoom self.new }
        ensures queue { entry_count self.new.queue ≤ place + 1 }
        ensures slots { self.new.slots ≡ self.old.slots }
        ensures tallies { self.new.tallies ≡ self.old.tallies }
        ensures most { self.new.most ≡ self.old.most }
    {
        let state = self.slots[place];
        self.lines
            .put(line_of(&state.flow, state.name), place as u32);
        self.queue.push(state.expiry, place as u32);
    }

    /// Leaves the slots that hold a state, and makes the lines and the queue anew. The tallies, which go by
    /// states and not by slots, stay. It takes no memory.
    fn compact(&mut self)
        requires room { HasRoom self.old }
        requires apart { AreApart (states_of self.old) }
        ensures slots { slots_of self.new ≡ states_of self.old }
        ensures parts { HasParts (slots_of self.new) self.new }
        ensures room { HasRoom self.new }
        ensures queue { entry_count self.new.queue ≤ length (slots_of self.new) }
        ensures tallies { self.new.tallies ≡ self.old.tallies }
        ensures most { self.new.most ≡ self.old.most }
    {
        self.keep_held();
        for place in 0..self.slots.len() {
            self.enter(place);
        }
    }

    /// Counts the state in that place, behind those before it.
    fn count(&mut self, place: usize)
        requires tallied { IsTallied (take place (slots_of self.old)) self.old.tallies }
        requires room { HasRoom self.old }
        requires pairs { self.old.tallies.counted < self.old.tallies.room }
        requires place { place < length (slots_of self.old) }
        requires held { is_held (slot (slots_of self.old) place) ≡ true }
        ensures tallied { IsTallied (take (place + 1) (slots_of self.old)) self.new.tallies }
        ensures room { HasRoom self.new }
        ensures counting { self.new.tallies.is_counting ≡ self.old.tallies.is_counting }
        ensures counted { self.new.tallies.counted ≤ self.old.tallies.counted + 1 }
        ensures pairs { self.new.tallies.room ≡ self.old.tallies.room }
        ensures slots { self.new.slots ≡ self.old.slots }
        ensures lines { self.new.lines ≡ self.old.lines }
        ensures queue { self.new.queue ≡ self.old.queue }
        ensures most { self.new.most ≡ self.old.most }
    {
        self.tallies.add(&self.slots[..place], &self.slots[place]);
    }

    /// Makes the tallies anew, where each slot holds a state, and counts limits from now on or not. It takes
    /// no memory.
    fn recount(&mut self, is_counting: bool)
        requires held { states_of self.old ≡ slots_of self.old }
        requires room { HasRoom self.old }
        requires few { 2 * length (slots_of self.old) < self.old.most }
        ensures tallied { IsTallied (slots_of self.new) self.new.tallies }
        ensures counting { self.new.tallies.is_counting ≡ is_counting }
        ensures room { HasRoom self.new }
        ensures pairs { self.new.tallies.counted < self.new.tallies.room }
        ensures slots { self.new.slots ≡ self.old.slots }
        ensures lines { self.new.lines ≡ self.old.lines }
        ensures queue { self.new.queue ≡ self.old.queue }
        ensures most { self.new.most ≡ self.old.most }
    {
        self.tallies.clear(is_counting);
        for place in 0..self.slots.len() {
            self.count(place);
        }
    }

    /// Drops the states whose rule isn't in the publication or, where they are kept, gives them rule 65535.
    pub fn take_over(&mut self, facts: &Facts)
        requires table { IsStateTable self.old }
        requires few { 2 * length (states_of self.old) < self.old.most }
        ensures states { states_of self.new
            ≡ object.states_after facts.now.settings.keep facts.now.rules (states_of self.old) }
        ensures count { length (states_of self.new) ≤ length (states_of self.old) }
        ensures table { IsStateTable self.new }
        ensures most { self.new.most ≡ self.old.most }
    {
        if self.slots.is_empty() {
            return;
        }
        let is_counting = self.tallies.is_counting();
        take_over(&mut self.slots, facts);
        self.compact();
        self.recount(is_counting);
    }

    /// Counts limits from now on, if the install has one. It takes no memory.
    pub fn count_limits(&mut self, is_limited: bool)
        requires table { IsStateTable self.old }
        requires few { 2 * length (states_of self.old) < self.old.most }
        ensures states { states_of self.new ≡ states_of self.old }
        ensures table { IsStateTable self.new }
        ensures counting { is_limited ≡ true → self.new.tallies.is_counting ≡ true }
        ensures most { self.new.most ≡ self.old.most }
    {
        if !is_limited || self.tallies.is_counting() {
            return;
        }
        self.compact();
        self.recount(true);
    }

    /// Leaves the slots that hold a state, and empties the lines and the queue.
    fn keep_held(&mut self)
        requires { HasRoom self.old }
        ensures slots { slots_of self.new ≡ states_of self.old }
        ensures parts { HasParts [] self.new }
        ensures queue { entry_count self.new.queue ≡ 0 }
        ensures room { HasRoom self.new }
        ensures tallies { self.new.tallies ≡ self.old.tallies }
        ensures most { self.new.most ≡ self.old.most }
    {
        keep_held(&mut self.slots);
        self.lines.clear();
        self.queue.clear();
    }

    /// Makes room for one more slot: where there is none, or few slots hold a state, it compacts, and where
    /// the tallies are full it counts anew. It takes no memory.
    pub fn make_room(&mut self)
        requires table { IsStateTable self.old }
        requires few { 2 * length (states_of self.old) < self.old.most }
        ensures states { states_of self.new ≡ states_of self.old }
        ensures table { IsStateTable self.new }
        ensures room { HasRoomForOne self.new }
        ensures counting { self.new.tallies.is_counting ≡ self.old.tallies.is_counting }
        ensures most { self.new.most ≡ self.old.most }
    {
        let has_room = self.slots.len() < self.most
            && !self.queue.is_full()
            && !self.tallies.is_full();
        if has_room && self.slots.len() < SPARE_SLOTS + 4 * self.tallies.live() as usize {
            return;
        }
        self.compact();
        if self.tallies.is_full() {
            let is_counting = self.tallies.is_counting();
            self.recount(is_counting);
        }
    }

    /// The slots, in the order of making. One of expiry 0 holds no state.
    pub fn slots(&self) -> &[State]
        ensures { result.now ≡ slots_of self.now }
    {
        &self.slots
    }

    /// How many states there are.
    pub fn live(&self) -> u32
        requires { IsStateTable self.now }
        ensures { result ≡ length (states_of self.now) }
    {
        self.tallies.live()
    }

    /// How many states a limit of the rule counts for the flow.
    pub fn count_of(&self, rule: RuleRef, mask: LimitMask, flow: &Flow) -> u32
        requires table { IsStateTable self.now }
        requires counting { self.now.tallies.is_counting ≡ true }
        ensures { result ≡ count_by (object.counts_for rule mask flow.now) (states_of self.now) }
    {
        self.tallies.amount_of(rule.id, mask, flow)
    }

    /// The place of the first state made that a lookup considers.
    pub fn place_of(&self, flow: &Flow, name: FlowName) -> Option<usize>
        requires { IsStateTable self.now }
        ensures { IsFirstPlace (object.considers flow.now name) (slots_of self.now) result }
    {
        match name {
            FlowName::Named(number) => self.place_named(flow, number),
            FlowName::Any => self.place_any(flow),
        }
    }

    /// The place of the state of that flow and name.
    fn place_named(&self, flow: &Flow, number: u8) -> Option<usize>
        requires { IsStateTable self.now }
        ensures { IsFirstPlace (object.considers flow.now (Named number)) (slots_of self.now)
            result }
    {
        let place = match self.lines.place_of(&line_of(flow, number)) {
            Some(place) => place as usize,
            None => return None,
        };
        if self.slots.len() <= place {
            return None;
        }
        if is_holding(&self.slots[place], flow, number) {
            Some(place)
        } else {
            None
        }
    }

    /// The first place of a state of that flow, whatever its name.
    fn place_any(&self, flow: &Flow) -> Option<usize>
        requires { IsStateTable self.now }
        ensures { IsFirstPlace (object.considers flow.now Any) (slots_of self.now) result }
    {
        let mut first = None;
        for name in 0..self.lines.names_end() {
            first = earlier(first, self.place_named(flow, name as u8));
        }
        first
    }
}

/// Whether the slot holds a state of that flow and name.
fn is_holding(state: &State, flow: &Flow, number: u8) -> bool
    ensures { result ≡ holds_one (object.considers flow.now (Named number)) state.now }
{
    state.expiry > 0 && is_considered(state, flow, FlowName::Named(number))
}

/// The earlier of two places.
fn earlier(place: Option<usize>, other: Option<usize>) -> Option<usize>
    ensures { result ≡ earlier_place place other }
{
    match (place, other) {
        (None, other) => other,
        (Some(place), None) => Some(place),
        (Some(place), Some(other)) => Some(if other < place { other } else { place }),
    }
}

/// Leaves the slots that hold a state.
fn keep_held(slots: &mut Vec<State>)
    ensures items { slots.new.items ≡ held_states slots.old.items }
    ensures bound { vec_len slots.new ≤ vec_len slots.old }
    ensures capacity { vec_capacity slots.new ≡ vec_capacity slots.old }
{
    slots.retain(|state| state.expiry > 0);
}

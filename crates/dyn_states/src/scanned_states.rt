ghost use Rattle.std.specs.Prelude.{◌≡◌, ◌≤◌, ◌<◌, ◌++◌, ◌∷◌, [], ◌≢◌, IfOk, Some, length, slice_index_or, slice_set, vec_len, vec_capacity, position, filter, count_by};
ghost use Rattle.std.specs.List.{list_any};
ghost use Rattle.fw_rule.specs.Values.{values_of};
ghost use Rattle.dyn_states.specs.StateObject as object;
ghost use Rattle.state_asks.specs.declared.reply.Reply.TheVariants.{Created};
ghost use Rattle.state_asks.specs.declared.op.FlowName.TheVariants.{Named};
ghost use Rattle.dyn_states.specs.declared.state.State.{State};
ghost use Rattle.dyn_states.specs.StateObject.{StateObject, after_lookup, lookup_reply, object_at_second, install_reply, after_install, reply_of, after_ask, after_publication, first_object};

use crate::State;
use crate::flows::way_of;
use crate::state_rules::{is_considered, parameter, renewed, take_over, with_flags};
use fw_base::OutOfMemory;
use fw_rule::{LimitMask, Settings};
use packet_headers::Flow;
use state_asks::{Facts, FlowName, Op, Reply, RuleRef, kept_flags};
use std::alloc::Global;
use std::marker::Model;

/// The dynamic states as a list that each ask goes over: the plain body, which is the definition step by
/// step.
#[derive(Drop)]
pub struct ScannedStates {
    states: Vec<State>,
    clock: u32,
    settings: Settings,
}

impl Model for ScannedStates {
    ghost use Rattle.std.specs.Prelude.{◌≤◌, ◌^◌, ◌<◌, vec_len, vec_capacity};
    ghost use Rattle.fw_rule.specs.Values.{values_of};
    ghost use Rattle.dyn_states.specs.StateObject.{HeldStates};

    ghost Value = { HeldStates };

    ghost view = { λ s. record {
      object = record { states = s.states.items; clock = s.clock; settings = values_of s.settings };
      room = vec_capacity s.states;
    } };

    ghost invariant = { λ s. (s.settings.max ≤ vec_capacity s.states)
        × (vec_len s.states < 2 ^ 32) };
}

/// Whether a limit of the rule counts the state.
fn is_counted(state: &State, rule: RuleRef, mask: LimitMask, flow: &Flow) -> bool
    ensures { result ≡ object.counts_for rule mask flow.now state.now }
{
    state.rule.id == rule.id && parameter(mask, &state.flow) == parameter(mask, flow)
}

impl ScannedStates {
    /// No state, the clock at 0. The memory for `max` states is taken here.
    pub fn open(alloc: Global, max: u32, settings: Settings) -> Result<ScannedStates, OutOfMemory>
        requires { settings.max ≤ max }
        ensures object { IfOk result (λ states. states.object ≡ first_object (values_of settings)) }
        ensures room { IfOk result (λ states. max ≤ states.room) }
    {
        Ok(ScannedStates {
            states: Vec::with_capacity(alloc, max as usize)?,
            clock: 0,
            settings,
        })
    }

    /// The greatest second of all asks, 0 before the first.
    pub fn clock(&self) -> u32
        ensures { result ≡ self.now.object.clock }
    {
        self.clock
    }

    /// For how many states there is memory: the most that `dyn_max` of a publication may be.
    pub fn room(&self) -> usize
        ensures { result ≡ self.now.room }
    {
        self.states.capacity()
    }

    /// The states in order of making. No dead one is among them: an ask that raises the clock gives up each that
    /// dies.
    pub fn states(&self) -> &[State]
        ensures { result.now ≡ self.now.object.states }
    {
        &self.states
    }

    /// What the ask answers; the states are then as it leaves them. It takes no memory.
    pub fn step(&mut self, op: &Op) -> Reply
        ensures reply { result ≡ reply_of self.old.object op.now }
        ensures after { self.new.object ≡ after_ask self.old.object op.now }
        ensures room { self.new.room ≡ self.old.room }
    {
        match *op {
            Op::Lookup {
                flow,
                flags,
                second,
                name,
            } => {
                self.raise(second);
                self.look_up(&flow, flags, name)
            }
            Op::Install {
                flow,
                flags,
                second,
                rule,
                limit,
                name,
            } => {
                self.raise(second);
                self.install(&flow, flags, rule, limit, name)
            }
        }
    }

    /// Takes in a publication. It takes no memory.
    #[tactic(auto, unfolding(crate::specs::StateObject::after_publication))]
    pub fn publish(&mut self, facts: &Facts)
        requires { facts.now.settings.max ≤ self.old.room }
        ensures after { self.new.object
            ≡ after_publication self.old.object facts.now.rules (values_of facts.now.settings) }
        ensures room { self.new.room ≡ self.old.room }
    {
        take_over(&mut self.states, facts);
        self.settings = facts.settings;
    }

    #[tactic(auto, unfolding(crate::specs::StateObject::object_at_second))]
    fn raise(&mut self, second: u32)
        ensures after { self.new.object ≡ object_at_second self.old.object second }
        ensures room { self.new.room ≡ self.old.room }
    {
        let clock = self.clock.max(second);
        self.clock = clock;
        keep_live(&mut self.states, clock);
    }

    fn look_up(&mut self, flow: &Flow, flags: u8, name: FlowName) -> Reply
        ensures reply { result ≡ lookup_reply self.old.object flow.now name }
        ensures after { self.new.object ≡ after_lookup self.old.object flow.now flags name }
        ensures room { self.new.room ≡ self.old.room }
    {
        match place_of(&self.states, flow, name) {
            None => Reply::NotFound,
            Some(place) => self.find_at(place, flow, flags),
        }
    }

    /// Finds the state in that place.
    fn find_at(&mut self, place: usize, flow: &Flow, flags: u8) -> Reply
        requires { place < length self.old.object.states }
        ensures reply { (d : State)
            → result ≡ object.found_reply flow.now
            (Some (slice_index_or self.old.object.states place d)) }
        ensures after { (d : State)
            → self.new.object
            ≡ record self.old.object {
              states = slice_set self.old.object.states place
                  (object.state_after_lookup self.old.object flow.now flags
                  (slice_index_or self.old.object.states place d));
            } }
        ensures room { self.new.room ≡ self.old.room }
    {
        let state = self.states[place];
        let way = way_of(&state.flow, flow);
        let settings = self.settings;
        self.states[place] = renewed(&settings, self.clock, with_flags(way, flags, state));
        Reply::Found(way, state.rule)
    }

    /// What an install answers.
    #[tactic(auto, unfolding(crate::specs::StateObject::install_reply))]
    fn install_answer(
        &self,
        flow: &Flow,
        rule: RuleRef,
        limit: Option<(LimitMask, u16)>,
        name: u8,
    ) -> Reply
        ensures value { result ≡ install_reply self.now.object flow.now rule limit name }
        ensures created { result ≡ Created
            → length self.now.object.states < self.now.object.settings.max }
    {
        if is_any_considered(&self.states, flow, name) {
            return Reply::Exists;
        }
        self.or_room(self.limit_answer(flow, rule, limit))
    }

    /// `LimitReached`, where it is.
    fn limit_answer(
        &self,
        flow: &Flow,
        rule: RuleRef,
        limit: Option<(LimitMask, u16)>,
    ) -> Option<Reply>
        ensures value { result ≡ object.limit_reply self.now.object rule limit flow.now }
        ensures refusal { result ≢ Some Created }
    {
        let (mask, most) = limit?;
        let count = self.limit_count(flow, rule, mask);
        if u32::from(most) <= count {
            Some(Reply::LimitReached(count))
        } else {
            None
        }
    }

    /// How many states a limit of the rule counts for the flow.
    #[tactic(auto, unfolding(crate::specs::StateObject::limit_count))]
    fn limit_count(&self, flow: &Flow, rule: RuleRef, mask: LimitMask) -> u32
        ensures { result ≡ object.limit_count self.now.object rule mask flow.now }
    {
        let count = count_of(&self.states, rule, mask, flow);
        count as u32
    }

    /// The answer, or where there is none what the room for a state makes it.
    fn or_room(&self, answer: Option<Reply>) -> Reply
        requires { answer ≢ Some Created }
        ensures value { result ≡ object.or_full self.now.object answer }
        ensures created { result ≡ Created
            → length self.now.object.states < self.now.object.settings.max }
    {
        match answer {
            Some(reply) => reply,
            None => self.room_answer(),
        }
    }

    /// `TableFull`, where it is, else `Created`.
    fn room_answer(&self) -> Reply
        ensures value { result ≡ object.full_reply self.now.object }
        ensures created { result ≡ Created
            → length self.now.object.states < self.now.object.settings.max }
    {
        let count = self.states.len();
        if self.settings.max as usize <= count {
            Reply::TableFull(count as u32)
        } else {
            Reply::Created
        }
    }

    #[tactic(auto, unfolding(crate::specs::StateObject::after_install))]
    fn install(
        &mut self,
        flow: &Flow,
        flags: u8,
        rule: RuleRef,
        limit: Option<(LimitMask, u16)>,
        name: u8,
    ) -> Reply
        ensures reply { result ≡ install_reply self.old.object flow.now rule limit name }
        ensures after { self.new.object
            ≡ after_install self.old.object flow.now flags rule limit name }
        ensures room { self.new.room ≡ self.old.room }
    {
        let reply = self.install_answer(flow, rule, limit, name);
        if let Reply::Created = reply {
            self.make(flow, flags, rule, limit, name);
        }
        reply
    }

    /// Makes the state of the packet.
    fn make(
        &mut self,
        flow: &Flow,
        flags: u8,
        rule: RuleRef,
        limit: Option<(LimitMask, u16)>,
        name: u8,
    )
        requires { length self.old.object.states < self.old.object.settings.max }
        ensures after { self.new.object
            ≡ record self.old.object {
              states = self.old.object.states
                  ++ object.new_state self.old.object flow.now flags rule limit name ∷ [];
            } }
        ensures room { self.new.room ≡ self.old.room }
    {
        let state = State {
            flow: *flow,
            rule,
            limit,
            name,
            expiry: 0,
            forward: kept_flags(flags),
            reverse: 0,
        };
        let settings = self.settings;
        self.states
            .push_reserved(renewed(&settings, self.clock, state));
    }
}

/// The place of the first state that a lookup considers.
fn place_of(states: &[State], flow: &Flow, name: FlowName) -> Option<usize>
    ensures { result ≡ position (object.considers flow.now name) states.now }
{
    states
        .iter()
        .position(|state| is_considered(state, flow, name))
}

/// Whether a state of that name matches the flow.
fn is_any_considered(states: &[State], flow: &Flow, name: u8) -> bool
    ensures { result ≡ list_any (object.considers flow.now (Named name)) states.now }
{
    states
        .iter()
        .any(|state| is_considered(state, flow, FlowName::Named(name)))
}

/// How many states a limit of the rule counts for the flow.
fn count_of(states: &[State], rule: RuleRef, mask: LimitMask, flow: &Flow) -> usize
    ensures value { result ≡ count_by (object.counts_for rule mask flow.now) states.now }
    ensures bound { result ≤ length states.now }
{
    states
        .iter()
        .filter(|state| is_counted(state, rule, mask, flow))
        .count()
}

/// Drops the dead states.
fn keep_live(states: &mut Vec<State>, clock: u32)
    ensures items { states.new.items ≡ filter (object.is_live clock) states.old.items }
    ensures bound { vec_len states.new ≤ vec_len states.old }
    ensures capacity { vec_capacity states.new ≡ vec_capacity states.old }
{
    states.retain(|state| u64::from(clock) < state.expiry);
}

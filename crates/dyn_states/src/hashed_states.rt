ghost use Rattle.std.specs.Prelude.{◌≡◌, ◌≤◌, IfOk, length};
ghost use Rattle.fw_rule.specs.Values.{values_of};
ghost use Rattle.dyn_states.specs.StateObject as object;
ghost use Rattle.dyn_states.specs.StateObject.{StateObject, object_at_second, reply_of, after_ask, after_publication, first_object};
ghost use Rattle.dyn_states.specs.Slots.{held_states};

use crate::State;
use crate::state_table::StateTable;
use crate::table_asks::{install, look_up};
use fw_base::OutOfMemory;
use fw_rule::{MOST_STATES, Settings};
use state_asks::{Facts, Op, Reply};
use std::alloc::Global;
use std::marker::Model;

/// The dynamic states in a table: a flow and a name lead to their state, the states that die are given up
/// by expiry, and what a limit counts is tallied from the first install
/// with one on. An ask walks over no states but once for many installs,
/// where the slots are compacted. It looks into a map, once for each flow name where it asks for any, and
/// takes a logarithmic step in the queue of expiries for each state that dies and for each entry.
#[derive(Drop)]
pub struct HashedStates {
    table: StateTable,
    clock: u32,
    settings: Settings,
    room: usize,
}

impl Model for HashedStates {
    ghost use Rattle.std.specs.Prelude.{◌*◌, ◌<◌, min};
    ghost use Rattle.fw_rule.specs.Values.{values_of};
    ghost use Rattle.dyn_states.specs.StateObject.{HeldStates};
    ghost use Rattle.dyn_states.specs.StateTable.{object_of, IsRoomy};

    ghost Value = { HeldStates };

    ghost view = { λ s. record {
      object = object_of s.table s.clock (values_of s.settings);
      room = s.room;
    } };

    ghost invariant = { λ s. IsRoomy s.table (values_of s.settings)
        × (2 * min s.room 65536 < s.table.most) };
}

impl HashedStates {
    /// No state, the clock at 0. The memory for `max` states is taken here.
    pub fn open(alloc: Global, max: u32, settings: Settings) -> Result<HashedStates, OutOfMemory>
        requires { settings.max ≤ max }
        ensures object { IfOk result (λ states. states.object ≡ first_object (values_of settings)) }
        ensures room { IfOk result (λ states. max ≤ states.room) }
    {
        let most = max.min(MOST_STATES) as usize;
        Ok(HashedStates {
            table: StateTable::open(alloc, 2 * most + 1)?,
            clock: 0,
            settings,
            room: max as usize,
        })
    }

    /// The greatest second of all asks, 0 before the first.
    pub fn clock(&self) -> u32
        ensures { result ≡ self.now.object.clock }
    {
        self.clock
    }

    /// For how many states there is memory: the most that `dyn_max` of a publication may be.
    pub fn room(&self) -> usize
        ensures { result ≡ self.now.room }
    {
        self.room
    }

    /// How many states there are.
    pub fn count(&self) -> usize
        ensures { result ≡ length self.now.object.states }
    {
        self.table.live() as usize
    }

    /// The states in order of making, among slots of expiry 0, which hold none. No dead one is among them: an
    /// ask that raises the clock gives up each that dies.
    pub fn slots(&self) -> &[State]
        ensures { held_states result.now ≡ self.now.object.states }
    {
        self.table.slots()
    }

    /// What the ask answers; the states are then as it leaves them. It takes no memory.
    pub fn step(&mut self, op: &Op) -> Reply
        ensures reply { result ≡ reply_of self.old.object op.now }
        ensures after { self.new.object ≡ after_ask self.old.object op.now }
        ensures room { self.new.room ≡ self.old.room }
    {
        match *op {
            Op::Lookup {
                flow,
                flags,
                second,
                name,
            } => {
                self.raise(second);
                look_up(
                    &mut self.table,
                    &self.settings,
                    self.clock,
                    &flow,
                    flags,
                    name,
                )
            }
            Op::Install {
                flow,
                flags,
                second,
                rule,
                limit,
                name,
            } => {
                self.raise(second);
                install(
                    &mut self.table,
                    &self.settings,
                    self.clock,
                    &flow,
                    flags,
                    rule,
                    limit,
                    name,
                )
            }
        }
    }

    /// Takes in a publication. It takes no memory.
    #[tactic(auto, unfolding(crate::specs::StateObject::after_publication))]
    pub fn publish(&mut self, facts: &Facts)
        requires { facts.now.settings.max ≤ self.old.room }
        ensures after { self.new.object
            ≡ after_publication self.old.object facts.now.rules (values_of facts.now.settings) }
        ensures room { self.new.room ≡ self.old.room }
    {
        self.table.take_over(facts);
        self.settings = facts.settings;
    }

    #[tactic(auto, unfolding(crate::specs::StateObject::object_at_second))]
    fn raise(&mut self, second: u32)
        ensures after { self.new.object ≡ object_at_second self.old.object second }
        ensures room { self.new.room ≡ self.old.room }
    {
        let clock = self.clock.max(second);
        self.clock = clock;
        self.table.retire_due(clock);
    }
}

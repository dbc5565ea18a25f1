ghost use Rattle.std.specs.Prelude.{◌≡◌, ℕ, ◌+◌, ◌-◌, ◌<◌, ◌≤◌, ◌^◌, [], ◌∷◌, ◌++◌, true, List, IfOk, length, count_by, nat_le, slice_index_or, slice_set};
ghost use Rattle.dyn_states.specs.declared.state.State.{State};
ghost use Rattle.dyn_states.specs.LimitCounts.{Counts, HasPairRoom, is_counted_for, amount_of, pair_count, pair_of, pair_room};
ghost use Rattle.dyn_states.specs.Slots.{is_held, given_up, slot, no_state};
ghost use Rattle.dyn_states.specs.Tallies.{IsTallied, CountsLimits, HasTallyRoom};
ghost use Rattle.dyn_states.specs.StateObject as object;

use crate::State;
use crate::limit_counts::LimitCounts;
use crate::state_rules::parameter;
use fw_base::OutOfMemory;
use fw_rule::LimitMask;
use packet_headers::Flow;
use std::alloc::Global;

/// How many states there are, and from the first install with a limit on how many of a rule have the same
/// parameter, by each of the four that a limit may count by.
#[derive(Drop)]
pub(crate) struct Tallies {
    live: u32,
    /// Limits are counted: a rule has asked for one. Until then the four know no pair.
    is_counting: bool,
    /// How many states were counted since the tallies were empty. So many pairs are known at most, since a
    /// pair stays known where its count falls to 0.
    counted: u32,
    /// For how many pairs each of the four has memory.
    room: u32,
    by_source: LimitCounts,
    by_source_port: LimitCounts,
    by_destination: LimitCounts,
    by_destination_port: LimitCounts,
}

/// What a limit by the mask counts the state for: its rule's identity and its parameter.
fn pair_of(mask: LimitMask, state: &State) -> (u32, u32)
    ensures { result ≡ pair_of mask state.now }
{
    (state.rule.id, parameter(mask, &state.flow))
}

/// Counts a state that is made, behind these slots. It takes no memory.
fn add(counts: &mut LimitCounts, mask: LimitMask, slots: &[State], state: &State)
    requires counts { Counts mask slots.now counts.old }
    requires held { is_held state.now ≡ true }
    requires room { pair_count counts.old < pair_room counts.old }
    requires few { length slots.now < 2 ^ 32 - 1 }
    ensures counts { Counts mask (slots.now ++ state.now ∷ []) counts.new }
    ensures pairs { pair_count counts.new ≤ pair_count counts.old + 1 }
    ensures room { pair_room counts.old ≤ pair_room counts.new }
{
    counts.add(pair_of(mask, state));
}

/// Counts the state in that place no longer.
fn take(counts: &mut LimitCounts, mask: LimitMask, slots: &[State], place: usize)
    requires counts { Counts mask slots.now counts.old }
    requires place { place < length slots.now }
    requires held { is_held (slot slots.now place) ≡ true }
    ensures counts { Counts mask (slice_set slots.now place (given_up (slot slots.now place)))
        counts.new }
    ensures pairs { pair_count counts.new ≡ pair_count counts.old }
    ensures room { pair_room counts.old ≤ pair_room counts.new }
{
    counts.take(pair_of(mask, &slots[place]));
}

impl Tallies {
    /// No state. The memory for so many pairs of each kind is taken here.
    pub fn open(alloc: Global, room: u32) -> Result<Tallies, OutOfMemory>
        ensures none { IfOk result (IsTallied []) }
        ensures memory { IfOk result HasTallyRoom }
        ensures room { IfOk result (λ made. made.room ≡ room) }
        ensures counted { IfOk result (λ made. made.counted ≡ 0) }
    {
        Ok(Tallies {
            live: 0,
            is_counting: false,
            counted: 0,
            room,
            by_source: LimitCounts::open(alloc, room as usize)?,
            by_source_port: LimitCounts::open(alloc, room as usize)?,
            by_destination: LimitCounts::open(alloc, room as usize)?,
            by_destination_port: LimitCounts::open(alloc, room as usize)?,
        })
    }

    /// Whether there may be no room for a pair more, until all are forgotten.
    pub fn is_full(&self) -> bool
        ensures { result ≡ nat_le self.now.room self.now.counted }
    {
        self.room <= self.counted
    }

    /// Whether limits are counted.
    pub fn is_counting(&self) -> bool
        ensures { result ≡ self.now.is_counting }
    {
        self.is_counting
    }

    /// How many states there are.
    pub fn live(&self) -> u32
        ensures { result ≡ self.now.live }
    {
        self.live
    }

    /// How many states of the rule have the flow's parameter.
    pub fn amount_of(&self, id: u32, mask: LimitMask, flow: &Flow) -> u32
        ensures { (slots : List State) → CountsLimits slots self.now
            → result ≡ count_by (is_counted_for mask (id, object.parameter mask flow.now)) slots }
    {
        let pair = (id, parameter(mask, flow));
        match mask {
            LimitMask::SrcAddr => self.by_source.amount_of(pair),
            LimitMask::SrcPort => self.by_source_port.amount_of(pair),
            LimitMask::DstAddr => self.by_destination.amount_of(pair),
            LimitMask::DstPort => self.by_destination_port.amount_of(pair),
        }
    }

    /// Counts for limits a state that is made, behind these slots. It takes no memory.
    fn add_pairs(&mut self, slots: &[State], state: &State)
        requires limits { CountsLimits slots.now self.old }
        requires held { is_held state.now ≡ true }
        requires memory { HasTallyRoom self.old }
        requires room { self.old.counted < self.old.room }
        requires few { length slots.now < 2 ^ 32 - 1 }
        ensures limits { CountsLimits (slots.now ++ state.now ∷ []) self.new }
        ensures memory { HasTallyRoom self.new }
        ensures live { self.new.live ≡ self.old.live }
        ensures counting { self.new.is_counting ≡ self.old.is_counting }
        ensures room { self.new.room ≡ self.old.room }
        ensures counted { self.new.counted ≡ self.old.counted + 1 }
    {
        self.counted += 1;
        add(&mut self.by_source, LimitMask::SrcAddr, slots, state);
        add(&mut self.by_source_port, LimitMask::SrcPort, slots, state);
        add(&mut self.by_destination, LimitMask::DstAddr, slots, state);
        add(
            &mut self.by_destination_port,
            LimitMask::DstPort,
            slots,
            state,
        );
    }

    /// Counts a state that is made, behind these slots. It takes no memory.
    pub fn add(&mut self, slots: &[State], state: &State)
        requires tallied { IsTallied slots.now self.old }
        requires held { is_held state.now ≡ true }
        requires memory { HasTallyRoom self.old }
        requires room { self.old.counted < self.old.room }
        requires few { length slots.now < 2 ^ 32 - 1 }
        ensures tallied { IsTallied (slots.now ++ state.now ∷ []) self.new }
        ensures memory { HasTallyRoom self.new }
        ensures counting { self.new.is_counting ≡ self.old.is_counting }
        ensures room { self.new.room ≡ self.old.room }
        ensures counted { self.new.counted ≤ self.old.counted + 1 }
    {
        self.live += 1;
        if self.is_counting {
            self.add_pairs(slots, state);
        }
    }

    /// Counts for limits the state in that place no longer.
    fn take_pairs(&mut self, slots: &[State], place: usize)
        requires limits { CountsLimits slots.now self.old }
        requires place { place < length slots.now }
        requires held { is_held (slot slots.now place) ≡ true }
        ensures limits { CountsLimits (slice_set slots.now place (given_up (slot slots.now place)))
            self.new }
        ensures memory { HasTallyRoom self.old → HasTallyRoom self.new }
        ensures live { self.new.live ≡ self.old.live }
        ensures counting { self.new.is_counting ≡ self.old.is_counting }
        ensures room { self.new.room ≡ self.old.room }
        ensures counted { self.new.counted ≡ self.old.counted }
    {
        take(&mut self.by_source, LimitMask::SrcAddr, slots, place);
        take(&mut self.by_source_port, LimitMask::SrcPort, slots, place);
        take(&mut self.by_destination, LimitMask::DstAddr, slots, place);
        take(
            &mut self.by_destination_port,
            LimitMask::DstPort,
            slots,
            place,
        );
    }

    /// Counts the state in that place no longer.
    pub fn take(&mut self, slots: &[State], place: usize)
        requires tallied { IsTallied slots.now self.old }
        requires place { place < length slots.now }
        requires held { is_held (slot slots.now place) ≡ true }
        ensures tallied { IsTallied (slice_set slots.now place (given_up (slot slots.now place)))
            self.new }
        ensures memory { HasTallyRoom self.old → HasTallyRoom self.new }
        ensures counting { self.new.is_counting ≡ self.old.is_counting }
        ensures room { self.new.room ≡ self.old.room }
        ensures counted { self.new.counted ≡ self.old.counted }
    {
        self.live -= 1;
        if self.is_counting {
            self.take_pairs(slots, place);
        }
    }

    /// Counts no state, and limits from now on or not.
    pub fn clear(&mut self, is_counting: bool)
        ensures none { IsTallied [] self.new }
        ensures memory { HasTallyRoom self.old → HasTallyRoom self.new }
        ensures counting { self.new.is_counting ≡ is_counting }
        ensures room { self.new.room ≡ self.old.room }
        ensures counted { self.new.counted ≡ 0 }
    {
        self.live = 0;
        self.is_counting = is_counting;
        self.counted = 0;
        self.by_source.clear();
        self.by_source_port.clear();
        self.by_destination.clear();
        self.by_destination_port.clear();
    }
}

ghost use Rattle.std.specs.Prelude.{◌≡◌, ℕ, ◌+◌, ◌-◌, ◌^◌, ◌<◌, ◌≤◌, IfOk, if◌then◌else◌};
ghost use Rattle.dyn_states.specs.LimitCounts as counts;
ghost use Rattle.dyn_states.specs.LimitCounts.{amount_of, pair_count, pair_room, same_pair};

use fw_base::OutOfMemory;
use std::alloc::Global;
use std::collections::HashMap;

/// How many states are counted for a rule's identity and a parameter's value.
#[derive(Drop)]
pub(crate) struct LimitCounts {
    amounts: HashMap<(u32, u32), u32>,
}

impl LimitCounts {
    /// No state. The memory for so many pairs is taken here.
    #[tactic(auto, unfolding(crate::specs::LimitCounts::amount_of))]
    pub fn open(alloc: Global, room: usize) -> Result<LimitCounts, OutOfMemory>
        ensures amounts { IfOk result (λ made. (q : ℕ × ℕ) → amount_of made q ≡ 0) }
        ensures count { IfOk result (λ made. pair_count made ≡ 0) }
        ensures room { IfOk result (λ made. room ≤ pair_room made) }
    {
        Ok(LimitCounts {
            amounts: HashMap::with_capacity(alloc, room)?,
        })
    }

    /// How many states are counted for the pair.
    #[tactic(auto, unfolding(crate::specs::LimitCounts::amount_of))]
    pub fn amount_of(&self, pair: (u32, u32)) -> u32
        ensures { result ≡ amount_of self.now pair }
    {
        self.amounts.get(&pair).copied().unwrap_or(0)
    }

    /// One more for the pair. It takes no memory.
    pub fn add(&mut self, pair: (u32, u32))
        requires room { pair_count self.old < pair_room self.old }
        requires fits { amount_of self.old pair + 1 < 2 ^ 32 }
        ensures amounts { (q : ℕ × ℕ)
            → amount_of self.new q ≡ (if same_pair pair q then amount_of self.old pair + 1
            else amount_of self.old q) }
        ensures count { pair_count self.new ≤ pair_count self.old + 1 }
        ensures room { pair_room self.old ≤ pair_room self.new }
    {
        if let Some(amount) = self.amounts.get_mut(&pair) {
            *amount += 1;
            return;
        }
        match self.amounts.insert(pair, 1) {
            Ok(_) => {}
            Err(_) => unreachable!(),
        }
    }

    /// One less for the pair. A pair stays known at 0.
    pub fn take(&mut self, pair: (u32, u32))
        ensures amounts { (q : ℕ × ℕ)
            → amount_of self.new q ≡ (if same_pair pair q then amount_of self.old pair - 1
            else amount_of self.old q) }
        ensures count { pair_count self.new ≡ pair_count self.old }
        ensures room { pair_room self.new ≡ pair_room self.old }
    {
        if let Some(amount) = self.amounts.get_mut(&pair) {
            *amount = amount.saturating_sub(1);
        }
    }

    /// Counts no state.
    #[tactic(auto, unfolding(crate::specs::LimitCounts::amount_of))]
    pub fn clear(&mut self)
        ensures amounts { (q : ℕ × ℕ) → amount_of self.new q ≡ 0 }
        ensures count { pair_count self.new ≡ 0 }
        ensures room { pair_room self.old ≤ pair_room self.new }
    {
        self.amounts.clear();
    }
}

ghost use Rattle.std.specs.Prelude.{◌≡◌, ℕ, ◌+◌, ◌<◌, ◌≤◌, [], ◌∷◌, IfOk, IfSome, MatchOption, IsTrue, All, OnSome, IfNone, IsPermutation, false, nat_le};
ghost use Rattle.dyn_states.specs.ExpiryQueue as queue;
ghost use Rattle.dyn_states.specs.ExpiryQueue.{entries, entry_count, entry_room, IsQueue};

use fw_base::OutOfMemory;
use std::alloc::Global;
use std::cmp::Reverse;
use std::collections::BinaryHeap;

/// Expiries with the places of their states, the earliest first.
#[derive(Drop)]
pub(crate) struct ExpiryQueue {
    heap: BinaryHeap<Reverse<(u64, u32)>>,
}

impl ExpiryQueue {
    /// No entry. The memory for so many is taken here.
    pub fn open(alloc: Global, room: usize) -> Result<ExpiryQueue, OutOfMemory>
        ensures entries { IfOk result (λ made. entries made ≡ []) }
        ensures count { IfOk result (λ made. entry_count made ≡ 0) }
        ensures room { IfOk result (λ made. entry_room made ≡ room) }
        ensures order { IfOk result IsQueue }
    {
        Ok(ExpiryQueue {
            heap: BinaryHeap::with_capacity(alloc, room)?,
        })
    }

    /// Whether there is no room for an entry.
    pub fn is_full(&self) -> bool
        ensures { result ≡ nat_le (entry_room self.now) (entry_count self.now) }
    {
        self.heap.capacity() <= self.heap.len()
    }

    /// The state in that place may die at the expiry. It takes no memory.
    pub fn push(&mut self, expiry: u64, place: u32)
        requires { entry_count self.old < entry_room self.old }
        ensures entries { IsPermutation ((record { 0 = (expiry, place) }) ∷ entries self.old)
            (entries self.new) }
        ensures count { entry_count self.new ≡ entry_count self.old + 1 }
        ensures room { entry_room self.old ≤ entry_room self.new }
        ensures order { IsQueue self.old → IsQueue self.new }
    {
        match self.heap.push(Reverse((expiry, place))) {
            Ok(()) => {}
            Err(_) => unreachable!(),
        }
    }

    /// Takes out the earliest entry, where it comes by that second, and answers its place.
    pub fn pop_due(&mut self, clock: u32) -> Option<u32>
        requires { IsQueue self.old }
        ensures entries { MatchOption result
            (All (λ e. queue.is_due clock e ≡ false) (entries self.new)
            × (entries self.new ≡ entries self.old)) (λ place. (expiry : ℕ) × (expiry ≤ clock)
            × IsPermutation (entries self.old)
            ((record { 0 = (expiry, place) }) ∷ entries self.new)) }
        ensures count { OnSome result (entry_count self.new + 1 ≡ entry_count self.old) }
        ensures kept { IfNone result (entry_count self.new ≡ entry_count self.old) }
        ensures room { entry_room self.new ≡ entry_room self.old }
        ensures order { IsQueue self.new }
    {
        match self.heap.peek() {
            Some(Reverse((expiry, _))) if *expiry <= u64::from(clock) => {}
            _ => return None,
        }
        match self.heap.pop() {
            Some(Reverse((_, place))) => Some(place),
            None => None,
        }
    }

    /// Takes out all entries.
    pub fn clear(&mut self)
        ensures entries { entries self.new ≡ [] }
        ensures count { entry_count self.new ≡ 0 }
        ensures room { entry_room self.new ≡ entry_room self.old }
        ensures order { IsQueue self.new }
    {
        self.heap.clear();
    }
}

ghost use Rattle.std.specs.Prelude.{◌≡◌, ℕ, ◌≤◌, ◌<◌, OnOk, OnErr, [], length, slice_set};
ghost use Rattle.counter_book.specs.Counts.{counted_under, count_after_packet, total_under};
ghost use Rattle.counter_book.specs.Counts as counts;

use fw_base::OutOfMemory;
use std::alloc::Global;
use std::marker::Model;

/// What one lane has counted, by counter number.
#[derive(Drop)]
pub struct Tally {
    counts: Vec<Count>,
}

impl Model for Tally {
    ghost use Rattle.std.specs.Prelude.{List};
    ghost use Rattle.counter_book.specs.declared.tally.Count.{Count};

    ghost Value = { List Count };

    ghost view = { λ t. t.counts.items };
}

impl Tally {
    /// A tally that is fitted for no number.
    pub fn new(alloc: Global) -> Tally
        ensures { result ≡ [] }
    {
        Tally {
            counts: Vec::new(alloc),
        }
    }

    /// Fits it for each number below `counters`. What it counted stays; where memory is wanted nothing
    /// has changed.
    pub fn fit(&mut self, counters: u32) -> Result<(), OutOfMemory>
        ensures fitted { OnOk result (counters ≤ length self.new) }
        ensures longer { OnOk result (length self.old ≤ length self.new) }
        ensures counts { OnOk result ((id : ℕ) → counted_under self.new id ≡ counted_under self.old id) }
        ensures unchanged { OnErr result (self.new ≡ self.old) }
    {
        let counters = counters as usize;
        if self.counts.len() < counters {
            self.counts.resize(counters, Count::default())?;
        }
        Ok(())
    }

    /// Counts a packet of that many bytes.
    pub fn hit(&mut self, id: u32, bytes: u32)
        requires { id < length self.old }
        ensures { self.new ≡ slice_set self.old id (count_after_packet (counted_under self.old id) bytes) }
    {
        let count = &mut self.counts[id as usize];
        count.packets = count.packets.wrapping_add(1);
        count.bytes = count.bytes.wrapping_add(u64::from(bytes));
    }

    /// What it counted under the number: nothing where it isn't fitted for it.
    pub fn count(&self, id: u32) -> Count
        ensures { result ≡ counted_under self.now id }
    {
        self.counts.get(id as usize).copied().unwrap_or(Count {
            packets: 0,
            bytes: 0,
        })
    }
}

/// What all the tallies counted under the number, modulo 2^64.
pub fn total(tallies: &[Tally], id: u32) -> Count
    ensures { result ≡ total_under tallies.now id }
{
    let mut total = Count {
        packets: 0,
        bytes: 0,
    };
    for tally in tallies {
        let count = tally.count(id);
        total.packets = total.packets.wrapping_add(count.packets);
        total.bytes = total.bytes.wrapping_add(count.bytes);
    }
    total
}

/// What was counted under one counter number, each modulo 2^64 (ipfw(8), "STATISTICS").
#[derive(Clone, Copy, Debug, Default, PartialEq, Eq)]
pub struct Count {
    pub packets: u64,
    /// The sum of the packets' total lengths.
    pub bytes: u64,
}

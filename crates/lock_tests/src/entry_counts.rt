ghost use Rattle.std.specs.Prelude.{◌≡◌, ℕ, ◌+◌, ◌-◌, ◌^◌, ◌≤◌, min, nat_lt, replicate, slice_index_or, slice_set};

use crate::marked_edition::Mark;
use fw_base::Kept;

/// A book that counts its publications and the entries of each of two processors. Its lists are as long as
/// the counts.
#[derive(Debug, Drop)]
pub(crate) struct EntryCounts {
    pub(crate) last: Mark,
    /// By list, its length: at 0 the publications, at each place the entries of that processor.
    pub(crate) lengths: [u64; 3],
}

impl EntryCounts {
    /// One more entry of the processor at that place. At its type's end the count stands still.
    pub(crate) fn add_entry(&mut self, place: u32)
        requires { place ≤ 2 }
        ensures last { self.new.last ≡ self.old.last }
        ensures lengths { self.new.lengths
            ≡ slice_set self.old.lengths place
            (min (slice_index_or self.old.lengths place 0 + 1) (2 ^ 64 - 1)) }
    {
        let length = &mut self.lengths[place as usize];
        *length = length.saturating_add(1);
    }
}

impl Kept for EntryCounts {
    type Facts = Mark;

    type Item = u64;

    ghost number = { λ b. b.last.number };

    ghost tag = { λ b. b.last };

    ghost ready = { λ b. nat_lt (slice_index_or b.lengths 0 0) (2 ^ 64 - 1) };

    ghost of = { λ b k. replicate (slice_index_or b.lengths k 0) k };

    ghost facts_number = { λ f. f.number };

    ghost facts_item = { λ f. 0 };

    fn current(&self) -> u64 {
        self.last.number
    }

    fn is_ready(&self) -> bool {
        self.lengths[0] < u64::MAX
    }

    fn publish(&mut self, facts: Mark) {
        self.last = facts;
        self.lengths[0] += 1;
    }
}

ghost use Rattle.std.specs.Prelude.{◌≡◌, ℕ, ◌+◌, ◌-◌, ◌^◌, ◌<◌, ◌≤◌, min, nat_lt, replicate, slice_index_or, slice_set};

use fw_base::Kept;

/// A book that counts its publications and the entries of each processor. Its lists are as long as the
/// counts.
#[derive(Debug, Drop)]
pub struct Book {
    pub number: u64,
    /// By list, its length: at 0 the publications, at each place the entries of that processor.
    pub lengths: [u64; 65],
}

impl Book {
    /// A book at number 1, with no publication and no entry.
    pub fn new() -> Book
        ensures { result ≡ record { number = 1; lengths = replicate 65 0 } }
    {
        Book {
            number: 1,
            lengths: [0; 65],
        }
    }

    /// One more entry of the processor at that place. At its type's end the count stands still.
    pub fn add_entry(&mut self, place: u32)
        requires { place ≤ 64 }
        ensures number { self.new.number ≡ self.old.number }
        ensures lengths { self.new.lengths
            ≡ slice_set self.old.lengths place
            (min (slice_index_or self.old.lengths place 0 + 1) (2 ^ 64 - 1)) }
    {
        let length = &mut self.lengths[place as usize];
        *length = length.saturating_add(1);
    }
}

impl Kept for Book {
    type Facts = u64;

    type Item = u64;

    ghost number = { λ b. b.number };

    ghost tag = { λ b. b.number };

    ghost ready = { λ b. nat_lt (slice_index_or b.lengths 0 0) (2 ^ 64 - 1) };

    ghost of = { λ b k. replicate (slice_index_or b.lengths k 0) 0 };

    ghost facts_number = { λ f. f };

    ghost facts_item = { λ f. 0 };

    fn current(&self) -> u64 {
        self.number
    }

    fn is_ready(&self) -> bool {
        self.lengths[0] < u64::MAX
    }

    fn publish(&mut self, facts: u64) {
        self.number = facts;
        self.lengths[0] += 1;
    }
}

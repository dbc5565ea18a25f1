ghost use Rattle.std.specs.Prelude.{◌≡◌, ℕ, ◌==◌, ◌^◌, ◌-◌, nat_lt, if◌then◌else◌, replicate};

use fw_base::Kept;

/// A book that counts: its publications, and the entries of processor 1. Its lists are as long as the
/// counts.
#[derive(Debug, Drop)]
pub(crate) struct Ledger {
    pub(crate) number: u64,
    pub(crate) publications: u64,
    pub(crate) entries: u64,
}

impl Kept for Ledger {
    type Facts = u64;

    type Item = u64;

    ghost number = { λ b. b.number };

    ghost tag = { λ b. b.number };

    ghost ready = { λ b. nat_lt b.publications (2 ^ 64 - 1) };

    ghost of = { λ b k. if k == 0 then replicate b.publications 0
        else (if k == 1 then replicate b.entries 1 else replicate 0 2) };

    ghost facts_number = { λ f. f };

    ghost facts_item = { λ f. 0 };

    fn current(&self) -> u64 {
        self.number
    }

    fn is_ready(&self) -> bool {
        self.publications < u64::MAX
    }

    fn publish(&mut self, facts: u64) {
        self.number = facts;
        self.publications += 1;
    }
}

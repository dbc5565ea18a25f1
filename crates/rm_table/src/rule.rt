ghost use Rattle.std.specs.Prelude.{◌≡◌, ℕ};
ghost use Rattle.rm_table.specs.Meanings.{meanings};
ghost use Rattle.rm_table.specs.Rule.{Whole};
ghost use Rattle.rm_table.specs.Ends.{first_view};

use crate::View;
use crate::padded_slot::PaddedSlot;
use atomic_table::TableRule;
use fw_base::{Kept, Numbered};
use std::snapshot::Snapshot;

/// What a seat of a lock over these editions and this book knows.
pub type LockView<E, B> = View<E, B, <B as Kept>::Facts, <E as Numbered>::Label, <B as Kept>::Item>;

/// What a table is opened with, for its rule.
#[derive(Drop)]
pub struct Opening<E, B> {
    pub processors: u64,
    pub edition: Snapshot<E>,
    pub book: Snapshot<B>,
}

/// The running rule of the lock's table.
pub struct LockRule;

impl<E: Numbered<Tag = B::Facts>, B: Kept> TableRule<
    PaddedSlot<E, B>,
    LockView<E, B>,
    Opening<E, B>,
> for LockRule {
    ghost holds = { λ key. Whole (meanings E.Numbered B.Kept) };

    ghost first = { λ key.
        first_view (meanings E.Numbered B.Kept) key.processors key.edition.value key.book.value };
}

ghost use Rattle.std.specs.Prelude.{◌≡◌, ℕ, ◌+◌, ◌*◌, ◌<◌, ◌≤◌};
ghost use Rattle.rm_table.specs.Layout.{index_of_word, number_index, behind_index, book_index, tracker_index, token_index};

use crate::padded_slot::PaddedSlot;
use crate::rule::{LockRule, LockView, Opening};
use atomic_table::Table;
use fw_base::{Kept, Numbered};
use std::alloc::Global;
use std::marker::Model;

/// The table under a read-mostly lock of 1 to 64 processors and one operator.
#[derive(Drop)]
pub struct RmTable<E: Numbered<Tag = B::Facts>, B: Kept> {
    pub(crate) table: Table<PaddedSlot<E, B>, LockView<E, B>, Opening<E, B>, LockRule, Global>,
    pub(crate) processors: u32,
    /// The memory that `close` needs.
    pub(crate) trackers: Vec<u64>,
    pub(crate) editions: Vec<E>,
}

impl<E: Numbered<Tag = B::Facts>, B: Kept> Model for RmTable<E, B> {
    ghost use Rattle.std.specs.Prelude.{vec_capacity};
    ghost use Rattle.atomic_table.specs.Seated.{TableId, table_id_coded};
    ghost use Rattle.rm_table.specs.Seats.{IsSized, HasClosingRoom};

    ghost Value = { TableId };

    ghost coded = { table_id_coded };

    ghost view = { λ t. t.table.shared.table_id };

    ghost invariant = { λ t. IsSized t.processors t.table.shared.table_id
        × HasClosingRoom t.processors t.trackers.items (vec_capacity t.trackers) t.editions.items
        (vec_capacity t.editions) };
}

/// The index of the word that has this number: 64 bytes lie between two words.
pub(crate) fn index_at(word: u32) -> usize
    ensures { result ≡ index_of_word word }
{
    8 * word as usize
}

pub(crate) fn number_at() -> usize
    ensures { result ≡ number_index }
{
    index_at(0)
}

pub(crate) fn behind_at() -> usize
    ensures { result ≡ behind_index }
{
    index_at(1)
}

pub(crate) fn book_at() -> usize
    ensures { result ≡ book_index }
{
    index_at(2)
}

pub(crate) fn tracker_at(place: u32) -> usize
    requires { place ≤ 65 }
    ensures { result ≡ tracker_index place }
{
    index_at(place + 2)
}

pub(crate) fn token_at(processors: u32, place: u32) -> usize
    requires few { processors ≤ 64 }
    requires within { place ≤ 65 }
    ensures { result ≡ token_index processors place }
{
    index_at(processors + place + 2)
}

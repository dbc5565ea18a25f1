ghost use Rattle.std.specs.Prelude.{◌≡◌, ◌↔◌, [], Contains, IfOk, IfSome, IsSome, OnOk, OnErr, IsErrOf, IsTrue};
ghost use Rattle.std.specs.Ordering.{nat_cmp};
ghost use Rattle.lookup_tables.specs.Entries.{HasKey, IsInOrder, with_entry, without_key};
ghost use Rattle.lookup_tables.specs.NumberTable.{number_answer};

use crate::InsertFault;
use crate::entries::{insert_entry, place_of, remove_entry};
use fw_base::OutOfMemory;
use std::alloc::Global;
use std::marker::Model;

/// A table of numbers, each with a value: the equal number answers. Contracts see it as its entries,
/// the numbers ascending.
#[derive(Clone, Drop)]
pub struct NumberTable {
    entries: Vec<(u32, u32)>,
}

impl Model for NumberTable {
    ghost use Rattle.std.specs.Ordering.{nat_cmp};
    ghost use Rattle.lookup_tables.specs.Entries.{IsInOrder};
    ghost use Rattle.lookup_tables.specs.NumberTable.{NumberEntries};

    ghost Value = { NumberEntries };

    ghost view = { λ t. t.entries.items };

    ghost invariant = { λ t. IsInOrder nat_cmp t.entries.items };
}

impl NumberTable {
    /// A table with no entry. It takes no memory.
    pub fn new(alloc: Global) -> NumberTable
        ensures { result ≡ [] }
    {
        NumberTable {
            entries: Vec::new(alloc),
        }
    }

    /// Adds an entry of that number and value. `Exists` comes exactly where the table has an entry of
    /// the number, and either fault leaves the table as it was.
    pub fn insert(&mut self, key: u32, value: u32) -> Result<(), InsertFault>
        ensures ok { OnOk result (self.new ≡ with_entry nat_cmp self.old key value) }
        ensures exists { IsErrOf result InsertFault.Exists ↔ HasKey self.old key }
        ensures err { OnErr result (self.new ≡ self.old) }
    {
        insert_entry(&mut self.entries, key, value)
    }

    /// Takes out the entry of that number; false exactly where the table has none. It takes no memory.
    pub fn remove(&mut self, key: u32) -> bool
        ensures there { IsTrue result ↔ HasKey self.old key }
        ensures after { self.new ≡ without_key nat_cmp self.old key }
    {
        remove_entry(&mut self.entries, &key)
    }

    /// The value of that number; `None` exactly where the table has no entry of it. It takes no memory.
    pub fn find(&self, key: u32) -> Option<u32>
        ensures answer { result ≡ number_answer self.now key }
        ensures equal { IfSome result (λ value. Contains self.now (key, value)) }
        ensures there { IsSome result ↔ HasKey self.now key }
    {
        match place_of(&self.entries, &key) {
            Ok(place) => Some(self.entries[place].1),
            Err(_) => None,
        }
    }

    /// The entries, the numbers ascending, no two of them equal.
    pub fn entries(&self) -> &[(u32, u32)]
        ensures value { result.now ≡ self.now }
        ensures ordered { IsInOrder nat_cmp self.now }
    {
        &self.entries
    }
}

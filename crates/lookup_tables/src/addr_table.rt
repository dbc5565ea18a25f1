ghost use Rattle.std.specs.Prelude.{◌≡◌, ◌↔◌, [], ℕ, length, All, MatchOption, IfOk, OnOk, OnErr, IsErrOf, IsTrue};
ghost use Rattle.fw_base.specs.Prefix.{Network, Covers};
ghost use Rattle.lookup_tables.specs.Entries.{HasKey, IsInOrder, with_entry, without_key};
ghost use Rattle.lookup_tables.specs.AddrTable.{network_cmp, address_answer, IsLongest};
ghost use Rattle.lookup_tables.specs.Pieces.{AreEntries, ArePiecesOf};

use crate::entries::{has_key, insert_entry, remove_entry};
use crate::intervals::{put_prefix, take_prefix};
use crate::pieces::place_in;
use crate::{InsertFault, Piece};
use fw_base::{Addr, OutOfMemory, Prefix};
use std::alloc::Global;
use std::marker::Model;

/// A table of prefixes, each with a value: the longest prefix that has an address decides (RFC 4632
/// section 5.1). Contracts see it as its entries, by address and then by length.
///
/// Beside the entries it keeps all addresses in pieces, cut where another prefix decides, so that a
/// lookup is a search by halves.
#[derive(Clone, Drop)]
pub struct AddrTable {
    entries: Vec<(Prefix, u32)>,
    pieces: Vec<Piece>,
}

impl Model for AddrTable {
    ghost use Rattle.lookup_tables.specs.AddrTable.{AddrEntries};
    ghost use Rattle.lookup_tables.specs.Pieces.{IsTable};

    ghost Value = { AddrEntries };

    ghost view = { λ t. t.entries.items };

    ghost invariant = { λ t. IsTable t.entries.items t.pieces.items };
}

impl AddrTable {
    /// A table with no entry. It takes no memory.
    pub fn new(alloc: Global) -> AddrTable
        ensures { result ≡ [] }
    {
        AddrTable {
            entries: Vec::new(alloc),
            pieces: Vec::new(alloc),
        }
    }

    /// Adds an entry of that prefix and value. `Exists` comes exactly where the table has an entry of
    /// the prefix, and either fault leaves the table as it was.
    pub fn insert(&mut self, key: Prefix, value: u32) -> Result<(), InsertFault>
        ensures ok { OnOk result (self.new ≡ with_entry network_cmp self.old key value) }
        ensures exists { IsErrOf result InsertFault.Exists ↔ HasKey self.old key }
        ensures err { OnErr result (self.new ≡ self.old) }
    {
        if has_key(&self.entries, &key) {
            return Err(InsertFault::Exists);
        }
        // Room first: one piece more for each end of the prefix, and the first of all.
        self.pieces.reserve(3)?;
        match insert_entry(&mut self.entries, key, value) {
            Ok(()) => {
                put_prefix(&mut self.pieces, key, value);
                Ok(())
            }
            Err(fault) => Err(fault),
        }
    }

    /// Takes out the entry of that prefix; false exactly where the table has none. It takes no memory.
    pub fn remove(&mut self, key: Prefix) -> bool
        ensures there { IsTrue result ↔ HasKey self.old key }
        ensures after { self.new ≡ without_key network_cmp self.old key }
    {
        if !remove_entry(&mut self.entries, &key) {
            return false;
        }
        take_prefix(&mut self.pieces, &self.entries, key);
        true
    }

    /// The value of the longest prefix that has the address; `None` exactly where none has it. It
    /// takes no memory.
    pub fn find(&self, a: Addr) -> Option<u32>
        ensures answer { result ≡ address_answer self.now a.0 }
        ensures longest { MatchOption result (All (λ entry. Covers entry.0 a.0 → ⊥) self.now)
            (λ value. (prefix : Network) × IsLongest self.now a.0 (prefix, value)) }
    {
        if self.pieces.is_empty() {
            return None;
        }
        self.pieces[place_in(&self.pieces, a)].value
    }

    /// The entries, by address and then by length, no two of one prefix.
    pub fn entries(&self) -> &[(Prefix, u32)]
        ensures value { result.now ≡ self.now }
        ensures ordered { IsInOrder network_cmp self.now }
        ensures networks { AreEntries self.now }
    {
        &self.entries
    }

    /// All addresses from 0.0.0.0 on in pieces, each with the answer of its addresses; none where there
    /// is no entry.
    pub fn pieces(&self) -> &[Piece]
        ensures { ArePiecesOf self.now result.now }
    {
        &self.pieces
    }
}

ghost use Rattle.std.specs.Prelude.{◌≡◌, ◌+◌, ◌%◌, ◌^◌, [], ◌∷◌, ◌++◌, OnOk, OnErr};

use crate::DocketEntry;
use fw_base::OutOfMemory;
use std::alloc::Global;
use std::marker::Model;

/// What was entered for the records of one lane, in order, and how many of its entries into a section
/// were refused, modulo 2^64.
#[derive(Drop)]
pub struct Docket {
    entries: Vec<DocketEntry>,
    refused: u64,
}

impl Model for Docket {
    ghost use Rattle.eval_engine.specs.Dockets.{DocketValue};

    ghost Value = { DocketValue };

    ghost view = { λ d. record { entries = d.entries.items; refused = d.refused } };
}

impl Docket {
    /// No entry, and none refused.
    pub fn new(alloc: Global) -> Docket
        ensures { result ≡ record { entries = []; refused = 0 } }
    {
        Docket {
            entries: Vec::new(alloc),
            refused: 0,
        }
    }

    /// Adds the entry as the last one.
    pub fn push(&mut self, entry: DocketEntry) -> Result<(), OutOfMemory>
        ensures entered { OnOk result (self.new
            ≡ record self.old { entries = self.old.entries ++ entry ∷ [] }) }
        ensures unchanged { OnErr result (self.new ≡ self.old) }
    {
        self.entries.push(entry)?;
        Ok(())
    }

    /// Counts one refused entry more. It takes no memory.
    pub fn refuse(&mut self)
        ensures { self.new ≡ record self.old { refused = (self.old.refused + 1) % 2 ^ 64 } }
    {
        self.refused = self.refused.wrapping_add(1);
    }

    /// The entries, in order.
    pub fn entries(&self) -> &[DocketEntry]
        ensures { result.now ≡ self.now.entries }
    {
        &self.entries
    }

    /// How many entries into a section were refused, modulo 2^64.
    pub fn refused(&self) -> u64
        ensures { result ≡ self.now.refused }
    {
        self.refused
    }
}

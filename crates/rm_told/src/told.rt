ghost use Rattle.std.specs.Prelude.{◌≡◌, ◌↔◌, IfOk, IfErr, IsErr};
ghost use Rattle.rm_table.specs.Meanings.{meanings};
ghost use Rattle.rm_told.specs.Depths.{EntersAtOne, MeetsTold, Leaves, one_section_deeper};

use crate::{Deep, MOST_DEPTH};
use fw_base::{Kept, Numbered};
use rm_lock::{Entry, Processor, RmLock};
use std::marker::Model;

/// What `enter` answers.
#[derive(Drop)]
pub enum DeepEntry<E: Numbered<Tag = B::Facts>, B: Kept> {
    /// The processor is in, at depth 1, and reads its edition.
    In(Deep<E, B>),
    /// The processor was refused: its token is revoked for the publication of that number.
    Revoked(Processor<E, B>, u64),
}

/// The section is at the greatest depth, and is given back as it was.
#[derive(Drop)]
pub struct TooDeep<E: Numbered<Tag = B::Facts>, B: Kept> {
    pub back: Deep<E, B>,
}

/// What `leave` answers.
#[derive(Drop)]
pub enum Left<E: Numbered<Tag = B::Facts>, B: Kept> {
    /// The processor is still in, in the section round the one that ended.
    Still(Deep<E, B>),
    /// The outermost section has ended.
    Out(Processor<E, B>),
}

/// A lock whose readers may begin a section in a section. Contracts see its lock's table.
#[derive(Drop)]
pub struct Told<E: Numbered<Tag = B::Facts>, B: Kept> {
    lock: RmLock<E, B>,
}

impl<E: Numbered<Tag = B::Facts>, B: Kept> Model for Told<E, B> {
    ghost use Rattle.atomic_table.specs.Seated.{TableId, table_id_coded};

    ghost Value = { TableId };

    ghost coded = { table_id_coded };

    ghost view = { λ t. t.lock };
}

impl<E: Numbered<Tag = B::Facts>, B: Kept> Told<E, B> {
    /// Takes the lock.
    pub fn of(lock: RmLock<E, B>) -> Told<E, B>
        ensures { result ≡ lock }
    {
        Told { lock }
    }

    /// Lends the lock, for its other calls.
    pub fn lock(&self) -> &RmLock<E, B>
        ensures { result.now ≡ self.now }
    {
        &self.lock
    }

    /// Gives the lock back.
    pub fn into_lock(self) -> RmLock<E, B>
        ensures { result ≡ self }
    {
        self.lock
    }

    /// The processor begins a section, as by the lock's own `enter`: In, the depth is 1, and the edition's
    /// number is at least `told` of the processor. It waits for nobody.
    pub fn enter(&self, p: Processor<E, B>) -> DeepEntry<E, B>
        requires lock { p.table_id ≡ self.now }
        ensures entry { EntersAtOne (meanings E.Numbered B.Kept) p result }
        ensures told { MeetsTold (meanings E.Numbered B.Kept) p result }
    {
        match self.lock.enter(p) {
            Entry::In(reading) => DeepEntry::In(Deep { reading, depth: 1 }),
            Entry::Revoked(p, refusal) => DeepEntry::Revoked(p, refusal),
        }
    }

    /// A section in the section: one deeper, with the same edition and no atomic step. Refused exactly at
    /// `MOST_DEPTH`.
    pub fn again(&self, d: Deep<E, B>) -> Result<Deep<E, B>, TooDeep<E, B>>
        ensures deeper { IfOk result (λ e. e ≡ one_section_deeper d) }
        ensures back { IfErr result (λ t. t.back ≡ d) }
        ensures refused { IsErr result ↔ d.depth ≡ MOST_DEPTH }
    {
        let Deep { reading, depth } = d;
        if depth == MOST_DEPTH {
            return Err(TooDeep {
                back: Deep { reading, depth },
            });
        }
        Ok(Deep {
            reading,
            depth: depth + 1,
        })
    }

    /// Ends the section. `Still` exactly where it lies in another; else the edition goes back and the tracker
    /// is lowered. It waits for nobody.
    pub fn leave(&self, d: Deep<E, B>) -> Left<E, B>
        requires lock { d.reading.table_id ≡ self.now }
        ensures left { Leaves d result }
    {
        let Deep { reading, depth } = d;
        if depth > 1 {
            Left::Still(Deep {
                reading,
                depth: depth - 1,
            })
        } else {
            Left::Out(self.lock.leave(reading))
        }
    }
}

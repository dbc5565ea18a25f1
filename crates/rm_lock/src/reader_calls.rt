ghost use Rattle.std.specs.Prelude.{◌≡◌, IsSome};
ghost use Rattle.rm_table.specs.Meanings.{meanings};
ghost use Rattle.rm_lock.specs.Calls.{Enters, after_lower, Regains, TriesToRegain};

use crate::slots::{put_edition, take_edition};
use crate::{Processor, Reading, RmLock, waits};
use fw_base::{Kept, Numbered};
use rm_core::Heard;
use rm_table::Tried;
use std::sync::Wait;

/// What `enter` answers.
#[derive(Drop)]
pub enum Entry<E: Numbered<Tag = B::Facts>, B: Kept> {
    /// The processor is in, and reads its edition.
    In(Reading<E, B>),
    /// The processor was refused: its token is revoked for the publication of that number.
    Revoked(Processor<E, B>, u64),
}

/// What a try answers that found another holder.
#[derive(Drop)]
pub struct Busy<T> {
    /// The token, as it was.
    pub back: T,
    /// Whom that one try saw in the word: the place of a processor, from 1, or one past the last for the
    /// operator.
    pub holder: u64,
}

impl<E: Numbered<Tag = B::Facts>, B: Kept> RmLock<E, B> {
    /// The processor begins a section: raise and check, and lower where it is refused. Where it is in, it reads an
    /// edition of the number and name that were published at the check. `Revoked` tells the number that its
    /// one load of its token saw, which is greater than the processor's own. It waits for nobody.
    pub fn enter(&self, p: Processor<E, B>) -> Entry<E, B>
        requires lock { p.table_id ≡ self.now }
        ensures entry { Enters (meanings E.Numbered B.Kept) p result }
    {
        let Processor {
            mut seat,
            place,
            number,
            told,
            refused,
        } = p;
        self.table.raise(&mut seat);
        match self.table.check(&mut seat) {
            Heard::Held => {
                let edition = take_edition(&self.table, &mut seat, place);
                Entry::In(Reading {
                    seat,
                    edition,
                    place,
                    refused,
                })
            }
            Heard::Revoked(refusal) => {
                self.table.lower(&mut seat);
                Entry::Revoked(
                    Processor {
                        seat,
                        place,
                        number,
                        told,
                        refused: true,
                    },
                    refusal,
                )
            }
            Heard::Drained | Heard::NotOut | Heard::Number(_) | Heard::Nothing => unreachable!(),
        }
    }

    /// The processor ends its section, and its edition goes back to its slot. It waits for nobody.
    pub fn leave(&self, r: Reading<E, B>) -> Processor<E, B>
        requires lock { r.table_id ≡ self.now }
        ensures lock { result.table_id ≡ self.now }
        ensures left { result.view ≡ after_lower r.view }
    {
        let Reading {
            mut seat,
            edition,
            place,
            refused,
        } = r;
        let number = edition.number();
        put_edition(&self.table, &mut seat, place, edition);
        self.table.lower(&mut seat);
        Processor {
            seat,
            place,
            number,
            told: number,
            refused,
        }
    }

    /// A processor that was refused takes its token again under the lock behind, for which it waits. Its number
    /// is then the published one, and at least every number that it was refused with since it last
    /// regained.
    pub fn regain<R: Wait>(&self, rt: &R, p: Processor<E, B>) -> Processor<E, B>
        requires lock { p.table_id ≡ self.now }
        requires refused { IsSome p.view.part.refusal }
        ensures lock { result.table_id ≡ self.now }
        ensures regained { Regains p.view result.view }
    {
        let Processor {
            mut seat,
            place,
            number: _,
            told,
            refused: _,
        } = p;
        waits::take_back(&self.table, rt, &mut seat);
        let number = self.table.read_number(&mut seat);
        self.table.regain(&mut seat);
        self.table.give_back(&mut seat);
        Processor {
            seat,
            place,
            number,
            told,
            refused: false,
        }
    }

    /// `regain` by one try, which waits for nobody. `Busy` tells whom that try saw to hold the lock behind.
    pub fn try_regain(&self, p: Processor<E, B>) -> Result<Processor<E, B>, Busy<Processor<E, B>>>
        requires lock { p.table_id ≡ self.now }
        requires refused { IsSome p.view.part.refusal }
        ensures tried { TriesToRegain p result }
    {
        let Processor {
            mut seat,
            place,
            number,
            told,
            refused,
        } = p;
        match self.table.take_back(&mut seat) {
            Tried::Taken => {
                let published = self.table.read_number(&mut seat);
                self.table.regain(&mut seat);
                self.table.give_back(&mut seat);
                Ok(Processor {
                    seat,
                    place,
                    number: published,
                    told,
                    refused: false,
                })
            }
            Tried::HeldBy(holder) => Err(Busy {
                back: Processor {
                    seat,
                    place,
                    number,
                    told,
                    refused,
                },
                holder: u64::from(holder),
            }),
        }
    }
}

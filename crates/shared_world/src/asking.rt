ghost use Rattle.std.specs.Prelude.{◌≡◌, ◌^◌, ◌<◌, ◌+◌, length, true, IfOk, OnErr};
ghost use Rattle.eval_engine.specs.Standing.{InstallsRuleOf, is_reply_to};
ghost use Rattle.shared_world.specs.LaneKept.{IsOfBook, ReadsSeen};
ghost use Rattle.shared_world.specs.Visits.{AsksOnce, MissesOnce, edition_of};
ghost use Rattle.state_asks.specs.Flags.{HasKeptFlags};

use crate::shared_book::SharedBook;
use fw_base::OutOfMemory;
use fw_world::AsksBook;
use generation_store::Edition;
use rm_lock::{Reading, RmLock};
use state_asks::{Op, Reply};
use std::marker::Model;
use std::sync::{Arc, Wait};

/// How a lane in a section asks the states: for each ask it waits for the book, and gives it back.
pub(crate) struct Asking<'a, R: Wait> {
    rt: &'a R,
    lock: &'a RmLock<Arc<Edition>, SharedBook>,
    reading: Option<Reading<Arc<Edition>, SharedBook>>,
    asks: u64,
}

impl<'a, R: Wait> Model for Asking<'a, R> {
    ghost use Rattle.shared_world.specs.Visits.{AskingValue, IsAskingBy, view_in};

    ghost Value = { AskingValue };

    ghost view = { λ a. record { lock = a.lock.now; view = view_in a.reading; asks = a.asks } };

    ghost invariant = { λ a. IsAskingBy a.lock.now a.reading a.asks };
}

/// Waits for the book, asks the states for a record of the lane, and gives the book back.
fn ask_once<R: Wait>(
    rt: &R,
    lock: &RmLock<Arc<Edition>, SharedBook>,
    reading: Reading<Arc<Edition>, SharedBook>,
    lane: u32,
    at: u64,
    op: &Op,
) -> (
    Reading<Arc<Edition>, SharedBook>,
    Result<Reply, OutOfMemory>,
)
    requires lock { reading.table_id ≡ lock.now }
    requires reads { ReadsSeen reading.view }
    requires of_book { IsOfBook reading.view }
    requires lane { lane ≡ reading.view.place }
    requires rule { InstallsRuleOf (edition_of reading.view).config.rules op.now }
    requires flags { HasKeptFlags op.now }
    ensures lock { result.0.table_id ≡ lock.now }
    ensures asked { IfOk result.1 (λ reply. AsksOnce reading.view at op.now reply result.0.view) }
    ensures missed { OnErr result.1 (MissesOnce reading.view result.0.view) }
    ensures fits { IfOk result.1 (λ reply.
        is_reply_to (edition_of reading.view).config.rules op.now reply ≡ true) }
    ensures counted { length result.0.view.part.own < 2 ^ 64 }
{
    let mut holding = lock.take_book(rt, reading);
    let reply = holding.book().ask(lane, at, op);
    (lock.give_book(holding), reply)
}

impl<'a, R: Wait> Asking<'a, R> {
    /// The way to the book of a lane that reads an edition.
    pub(crate) fn new(
        rt: &'a R,
        lock: &'a RmLock<Arc<Edition>, SharedBook>,
        reading: Reading<Arc<Edition>, SharedBook>,
    ) -> Asking<'a, R>
        requires lock { reading.table_id ≡ lock.now }
        requires reads { ReadsSeen reading.view }
        requires of_book { IsOfBook reading.view }
        ensures { result ≡ record { lock = lock.now; view = reading.view; asks = 0 } }
    {
        Asking {
            rt,
            lock,
            reading: Some(reading),
            asks: 0,
        }
    }

    /// The lane, which reads its edition still.
    pub(crate) fn into_reading(self) -> Reading<Arc<Edition>, SharedBook>
        ensures lock { result.table_id ≡ self.entry.lock }
        ensures view { result.view ≡ self.entry.view }
    {
        let Asking {
            rt: _,
            lock: _,
            reading,
            asks: _,
        } = self;
        match reading {
            Some(reading) => reading,
            None => unreachable!(),
        }
    }
}

impl<'a, R: Wait> AsksBook for Asking<'a, R> {
    ghost use Rattle.std.specs.Prelude.{◌≡◌, ◌+◌};
    ghost use Rattle.shared_world.specs.Visits.{AsksOnce, MissesOnce, edition_of};

    ghost edition = { λ a. edition_of a.view };

    ghost serves = { λ a lane. lane ≡ a.view.place };

    ghost enters = { λ old lane at op reply new. (new.lock ≡ old.lock)
        × AsksOnce old.view at op reply new.view };

    ghost misses = { λ old new. (new.lock ≡ old.lock) × MissesOnce old.view new.view };

    ghost entered = { λ a. a.asks };

    fn edition(&self) -> &Edition {
        match &self.reading {
            Some(reading) => reading.edition(),
            None => unreachable!(),
        }
    }

    fn entered(&self) -> u64 {
        self.asks
    }

    fn ask(&mut self, lane: u32, at: u64, op: &Op) -> Result<Reply, OutOfMemory> {
        match self.reading.take() {
            Some(reading) => {
                let (reading, outcome) = ask_once(self.rt, self.lock, reading, lane, at, op);
                self.reading = Some(reading);
                if outcome.is_ok() {
                    self.asks += 1;
                }
                outcome
            }
            None => unreachable!(),
        }
    }
}

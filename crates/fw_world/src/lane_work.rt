ghost use Rattle.std.specs.Prelude.{◌≡◌, [], true, false};
ghost use Rattle.eval_engine.specs.Question.{question_under};
ghost use Rattle.fw_world.specs.Caches.{IsPortFor, IsTrueFor};
ghost use Rattle.fw_world.specs.LaneSteps.{LaneEnters, LaneJudges, work_after_section};

use crate::asks_book::AsksBook;
use cached_verdicts::LaneCache;
use counter_book::Tally;
use eval_engine::{Docket, DocketEntry, Judgement};
use fw_base::{OutOfMemory, Port};
use ip6_headers::AnyIp;
use rule_chain::law_of_configuration;
use std::alloc::Global;

/// What a lane does with its records, in whatever world.
#[derive(Drop)]
pub struct LaneWork {
    /// What was entered for each of its records.
    pub docket: Docket,
    /// What was counted under each counter.
    pub tally: Tally,
    /// The verdicts of its recent packets, where it keeps any.
    pub cache: Option<LaneCache>,
    /// Memory was wanted: nothing more is entered.
    pub failed: bool,
    /// How many sections were left without a judgement or tried while a refusal stood.
    pub loose: u64,
}

impl LaneWork {
    /// That of a lane that has judged nothing, with this cache or with none.
    pub fn new(alloc: Global, cache: Option<LaneCache>) -> LaneWork
        ensures { result ≡ record {
          docket = record { entries = []; refused = 0 };
          tally = [];
          cache = cache;
          failed = false;
          loose = 0;
        } }
    {
        LaneWork {
            docket: Docket::new(alloc),
            tally: Tally::new(alloc),
            cache,
            failed: false,
            loose: 0,
        }
    }

    /// Counts a section as loose where it is one; the count stands still at the end of 64 bits.
    pub fn loosen(&mut self, is_loose: bool)
        ensures { self.new ≡ work_after_section is_loose self.old }
    {
        if is_loose {
            self.loose = self.loose.saturating_add(1);
        }
    }

    /// Enters a record. Where memory is wanted the lane has failed.
    pub fn enter(&mut self, entry: DocketEntry) -> Result<(), OutOfMemory>
        ensures { LaneEnters self.old self.new entry result }
    {
        if self.failed {
            return Err(OutOfMemory);
        }
        let entered = self.docket.push(entry);
        self.failed = entered.is_err();
        entered
    }

    /// Judges the next record, a packet that was captured there at that second, under the edition that the
    /// asker lends. Where memory is wanted the lane has failed, no entry is made, and the asks that were made
    /// stay.
    #[tactic(auto, using(crate::proofs::Running::asks_nothing))]
    pub fn judge<B: AsksBook>(
        &mut self,
        book: &mut B,
        lane: u32,
        packet: &AnyIp<'_>,
        port: &Port,
        second: u32,
    ) -> Result<Judgement, OutOfMemory>
        requires lane { B.serves book.old lane }
        requires port { IsPortFor self.old.cache port.now }
        requires kept { IsTrueFor (B.edition book.old) self.old.cache }
        ensures { LaneJudges B.enters B.misses book.old book.new lane
            (question_under (B.edition book.old) packet.now port.now second) self.old self.new result }
    {
        if self.failed {
            return Err(OutOfMemory);
        }
        // it has failed until its entry is made
        self.failed = true;
        let config = book.edition().config();
        law_of_configuration(config);
        self.tally.fit(config.counters())?;
        let judgement = self.evaluate(book, lane, packet, port, second)?;
        self.docket.push(DocketEntry::judged(judgement))?;
        self.failed = false;
        Ok(judgement)
    }
}

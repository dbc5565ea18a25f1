use counter_book::Tally;
use eval_engine::Docket;
use generation_store::Edition;
use state_journal::Book;
use std::marker::Model;
use std::sync::Arc;

/// What is left of a run to be reported, lent as one.
#[derive(Drop)]
pub struct Recorded<'a> {
    /// In the order of their publication.
    pub editions: &'a [Arc<Edition>],
    /// The journal of the states.
    pub book: &'a Book,
    /// For each lane what was entered for its records.
    pub dockets: &'a [Docket],
    /// For each lane what it counted.
    pub tallies: &'a [Tally],
    /// For each lane its tracker's word.
    pub trackers: &'a [u64],
    /// For each lane the hits of its cache; none where no cache was asked for.
    pub hits: &'a [u64],
}

impl<'a> Model for Recorded<'a> {
    ghost use Rattle.std.specs.Prelude.{map};
    ghost use Rattle.std.specs.Arc.{arc_value};
    ghost use Rattle.report_texts.specs.Recorded.{Recorded};

    ghost Value = { Recorded };

    ghost view = { λ r. record {
      editions = map arc_value r.editions.now;
      journal = r.book.now;
      dockets = r.dockets.now;
      tallies = r.tallies.now;
      trackers = r.trackers.now;
      hits = r.hits.now;
    } };
}

ghost use Rattle.std.specs.Prelude.{◌≡◌, List, length, map};
ghost use Rattle.std.specs.Arc.{arc_value};
ghost use Rattle.fw_rule.specs.declared.command.Command.{Command};
ghost use Rattle.rule_chain.specs.Configuration.{Configuration};
ghost use Rattle.state_journal.specs.Journal.{IsJournal};
ghost use Rattle.fw_world.specs.Editions.{AreEditions};
ghost use Rattle.fw_world.specs.Inputs.{Input};
ghost use Rattle.fw_world.specs.Lanes.{EachLane, LaneStands, LaneCounts, LaneRises};
ghost use Rattle.fw_world.specs.Legal.{IsLegal, IsLegalButSections};
ghost use Rattle.fw_world.specs.Publications.{IsPublished};

use crate::Columns;
use counter_book::Tally;
use eval_engine::Docket;
use generation_store::Edition;
use state_journal::Book;
use std::marker::Model;
use std::sync::Arc;

/// What a run leaves: its editions, its book, and what each lane entered and counted.
#[derive(Drop)]
pub struct Record {
    editions: Vec<Arc<Edition>>,
    book: Book,
    dockets: Vec<Docket>,
    tallies: Vec<Tally>,
    trackers: Vec<u64>,
    hits: Vec<u64>,
}

impl Model for Record {
    ghost use Rattle.std.specs.Prelude.{map};
    ghost use Rattle.std.specs.Arc.{arc_value};
    ghost use Rattle.fw_world.specs.RecordValue.{RecordValue};

    ghost Value = { RecordValue };

    ghost view = { λ r. record {
      editions = map arc_value r.editions.items;
      journal = r.book;
      dockets = r.dockets.items;
      tallies = r.tallies.items;
      trackers = r.trackers.items;
      hits = r.hits.items;
    } };
}

impl Record {
    /// The record of a run: its editions in the order of their publication, its book, and the columns of
    /// its lanes in the order of their places. It is legal for whatever editions and lanes stand for, and
    /// takes no memory.
    pub fn new(editions: Vec<Arc<Edition>>, book: Book, columns: Columns) -> Record
        requires { IsPublished (map arc_value editions.items) book }
        ensures exact { result ≡ record {
          editions = map arc_value editions.items;
          journal = book;
          dockets = columns.dockets;
          tallies = columns.tallies;
          trackers = columns.trackers;
          hits = columns.hits;
        } }
        ensures legal { (first : Configuration) (commands : List Command) (inputs : List (List Input))
            → AreEditions first commands result.editions → length inputs ≡ result.journal.lanes
            → EachLane (LaneStands result) 1 inputs result.dockets result.tallies result.trackers
            → EachLane (LaneCounts result) 1 inputs result.dockets result.tallies result.trackers
            → IsLegal first commands inputs result }
        ensures nearly { (first : Configuration) (commands : List Command) (inputs : List (List Input))
            → AreEditions first commands result.editions → length inputs ≡ result.journal.lanes
            → EachLane (LaneStands result) 1 inputs result.dockets result.tallies result.trackers
            → EachLane LaneRises 1 inputs result.dockets result.tallies result.trackers
            → IsLegalButSections first commands inputs result }
    {
        law_of_journal(&book);
        let (dockets, tallies, trackers, hits) = columns.into_parts();
        Record {
            editions,
            book,
            dockets,
            tallies,
            trackers,
            hits,
        }
    }

    /// The editions in the order of their publication.
    pub fn editions(&self) -> &[Arc<Edition>]
        ensures { map arc_value result.now ≡ self.now.editions }
    {
        &self.editions
    }

    /// The states with their journal.
    pub fn book(&self) -> &Book
        ensures { result.now ≡ self.now.journal }
    {
        &self.book
    }

    /// The dockets, in the order of the lanes.
    pub fn dockets(&self) -> &[Docket]
        ensures { result.now ≡ self.now.dockets }
    {
        &self.dockets
    }

    /// The tallies, in the order of the lanes.
    pub fn tallies(&self) -> &[Tally]
        ensures { result.now ≡ self.now.tallies }
    {
        &self.tallies
    }

    /// The tracker words, in the order of the lanes: each twice the sections that its lane began, modulo
    /// 2^64.
    pub fn trackers(&self) -> &[u64]
        ensures { result.now ≡ self.now.trackers }
    {
        &self.trackers
    }

    /// How many of each lane's packets were hits in its cache, in the order of the lanes; none where the lanes
    /// have no cache.
    pub fn hits(&self) -> &[u64]
        ensures { result.now ≡ self.now.hits }
    {
        &self.hits
    }
}

/// Does nothing, and says that the journal is lawful and leaves the states that there are.
fn law_of_journal(book: &Book)
    ensures { IsJournal book.now }
{
    let _entries = book.entries();
}

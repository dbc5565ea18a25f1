ghost use Rattle.std.specs.Prelude.{◌≡◌, ◌<◌, IfOk};
ghost use Rattle.fw_world.specs.Columns.{no_columns, with_lane};

use crate::LaneWork;
use counter_book::Tally;
use eval_engine::Docket;
use fw_base::OutOfMemory;
use std::alloc::Global;
use std::marker::Model;

/// Dockets, tallies and tracker words of lanes, and hits of those that have a cache, with the memory for those
/// that are still to come.
#[derive(Drop)]
pub struct Columns {
    dockets: Vec<Docket>,
    tallies: Vec<Tally>,
    trackers: Vec<u64>,
    hits: Vec<u64>,
    room: u32,
}

impl Model for Columns {
    ghost use Rattle.std.specs.Prelude.{◌+◌, ◌≤◌, vec_len, vec_capacity};
    ghost use Rattle.fw_world.specs.Columns.{ColumnsValue};

    ghost Value = { ColumnsValue };

    ghost view = { λ c. record {
      dockets = c.dockets.items;
      tallies = c.tallies.items;
      trackers = c.trackers.items;
      hits = c.hits.items;
      room = c.room;
    } };

    ghost invariant = { λ c. (vec_len c.dockets + c.room ≤ vec_capacity c.dockets)
        × (vec_len c.tallies + c.room ≤ vec_capacity c.tallies)
        × (vec_len c.trackers + c.room ≤ vec_capacity c.trackers)
        × (vec_len c.hits + c.room ≤ vec_capacity c.hits) };
}

impl Columns {
    /// Those of no lane, with room for so many.
    pub fn with_room(alloc: Global, room: u32) -> Result<Columns, OutOfMemory>
        ensures { IfOk result (λ columns. columns ≡ no_columns room) }
    {
        let lanes = room as usize;
        Ok(Columns {
            dockets: Vec::with_capacity(alloc, lanes)?,
            tallies: Vec::with_capacity(alloc, lanes)?,
            trackers: Vec::with_capacity(alloc, lanes)?,
            hits: Vec::with_capacity(alloc, lanes)?,
            room,
        })
    }

    /// Adds those of the lane as the last ones. It takes no memory.
    pub fn add(&mut self, work: LaneWork, tracker: u64)
        requires room { 0 < self.old.room }
        ensures { self.new ≡ with_lane work.docket work.tally work.cache tracker self.old }
    {
        let LaneWork {
            docket,
            tally,
            cache,
            failed: _,
            loose: _,
        } = work;
        self.dockets.push_reserved(docket);
        self.tallies.push_reserved(tally);
        self.trackers.push_reserved(tracker);
        if let Some(cache) = cache {
            self.hits.push_reserved(cache.hits());
        }
        self.room -= 1;
    }

    /// The dockets, tallies, tracker words and hits, in the order of the lanes.
    pub fn into_parts(self) -> (Vec<Docket>, Vec<Tally>, Vec<u64>, Vec<u64>)
        ensures dockets { result.0.items ≡ self.dockets }
        ensures tallies { result.1.items ≡ self.tallies }
        ensures trackers { result.2.items ≡ self.trackers }
        ensures hits { result.3.items ≡ self.hits }
    {
        (self.dockets, self.tallies, self.trackers, self.hits)
    }
}

ghost use Rattle.std.specs.Prelude.{◌≡◌, ◌<◌, ◌≤◌, IfOk, length};
ghost use Rattle.run_audit.specs.AskStands as spec;

use crate::ask_stands::AskStand;
use fw_base::OutOfMemory;
use state_journal::Entry;
use std::alloc::Global;
use std::marker::Model;

/// So many lanes an entry of a journal can name.
pub(crate) const NAMED_LANES: usize = 65_536;

/// How far a journal was read.
#[derive(Drop)]
pub(crate) struct Sweep {
    /// The greatest record that each lane has asked for.
    greatest: Vec<u64>,
    /// The last publication.
    after: u64,
}

impl Model for Sweep {
    ghost use Rattle.std.specs.Prelude.{◌≡◌, length};
    ghost use Rattle.run_audit.specs.AskStands.{SweepValue, most_lanes};

    ghost Value = { SweepValue };

    ghost view = { λ s. record { greatest = s.greatest.items; after = s.after } };

    ghost invariant = { λ s. length s.greatest.items ≡ most_lanes };
}

impl Sweep {
    /// Nothing was read.
    pub(crate) fn new(alloc: Global, lanes: usize) -> Result<Sweep, OutOfMemory>
        requires { lanes ≡ spec.most_lanes }
        ensures { IfOk result (λ sweep. sweep ≡ spec.no_sweep lanes) }
    {
        Ok(Sweep {
            greatest: vec![in alloc; 0; lanes]?,
            after: 0,
        })
    }

    /// Reads the entry in this place; what is kept of it, where it is an ask.
    pub(crate) fn take(&mut self, place: usize, entry: &Entry) -> Option<AskStand>
        ensures stand { result ≡ spec.stand_of self.old place entry.now }
        ensures swept { self.new ≡ spec.swept self.old entry.now }
    {
        match entry {
            Entry::Publish(number) => {
                self.after = *number;
                None
            }
            Entry::Ask { lane, at, .. } => {
                let greatest = self.greatest[usize::from(*lane)];
                self.greatest[usize::from(*lane)] = greatest.max(*at);
                Some(AskStand {
                    lane: *lane,
                    at: *at,
                    place,
                    after: self.after,
                    is_late: *at < greatest,
                })
            }
        }
    }
}

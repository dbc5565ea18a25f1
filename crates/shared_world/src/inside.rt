use crate::padded_work::PaddedWork;
use crate::shared_book::SharedBook;
use generation_store::Edition;
use rm_lock::Reading;
use std::marker::Model;
use std::sync::Arc;

/// A lane of a shared world within a section, in which it reads one edition and may judge one packet.
#[derive(Drop)]
pub struct Inside {
    pub(crate) reading: Reading<Arc<Edition>, SharedBook>,
    pub(crate) place: u32,
    pub(crate) work: PaddedWork,
    pub(crate) judged: bool,
}

impl Model for Inside {
    ghost use Rattle.std.specs.Prelude.{◌≡◌};
    ghost use Rattle.fw_world.specs.LaneKept.{pending_of};
    ghost use Rattle.shared_world.specs.LaneKept.{IsSharedLane, ReadsSeen};
    ghost use Rattle.shared_world.specs.SharedLane.{SharedInside, lane_of, edition_read};

    ghost Value = { SharedInside };

    ghost view = { λ i. record {
      lane = lane_of i.reading.table_id i.reading.view i.work;
      edition = edition_read i.reading.view;
      judged = i.judged;
    } };

    ghost invariant = { λ i. IsSharedLane (pending_of i.judged) i.reading.view i.work
        × ReadsSeen i.reading.view × (i.reading.view.place ≡ i.place) };
}

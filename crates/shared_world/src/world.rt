use crate::shared_book::SharedBook;
use generation_store::Edition;
use rm_lock::RmLock;
use std::marker::Model;
use std::sync::Arc;

/// The world for many threads: each lane reads the edition of its own slot, and the one book of the states
/// goes from lane to lane. Its calls take `&self`, and move the lane, the inside or the desk that calls.
#[derive(Drop)]
pub struct World {
    pub(crate) lock: RmLock<Arc<Edition>, SharedBook>,
}

impl Model for World {
    ghost use Rattle.atomic_table.specs.Seated.{TableId, table_id_coded};

    ghost Value = { TableId };

    ghost coded = { table_id_coded };

    ghost view = { λ w. w.lock };
}

use crate::{Operator, Processor};
use fw_base::{Kept, Numbered};
use rm_table::RmTable;
use std::marker::Model;

/// A read-mostly lock of 1 to 64 processors and one operator, over editions and a book.
#[derive(Drop)]
pub struct RmLock<E: Numbered<Tag = B::Facts>, B: Kept> {
    pub(crate) table: RmTable<E, B>,
}

impl<E: Numbered<Tag = B::Facts>, B: Kept> Model for RmLock<E, B> {
    ghost use Rattle.atomic_table.specs.Seated.{TableId, table_id_coded};

    ghost Value = { TableId };

    ghost coded = { table_id_coded };

    ghost view = { λ l. l.table };
}

/// A new lock, with its tokens: the processors in the order of their places, from 1.
#[derive(Drop)]
pub struct Opened<E: Numbered<Tag = B::Facts>, B: Kept> {
    pub lock: RmLock<E, B>,
    pub processors: Vec<Processor<E, B>>,
    pub operator: Operator<E, B>,
}

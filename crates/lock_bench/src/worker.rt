ghost use Rattle.std.specs.Prelude.{◌≡◌, ◌≢◌, ℕ, ◌+◌, ◌≤◌, ◌<◌, ◌∷◌, Some, None, IfOk, IsTrue, MatchOption};
ghost use Rattle.atomic_table.specs.Table.{rest};
ghost use Rattle.rm_table.specs.Layout.{book_index};
ghost use Rattle.rm_table.specs.Moves.{with_step, book_taken};
ghost use Rattle.rm_table.specs.Rests.{IsIdle, IsInSection, OpensFrom};
ghost use Rattle.rm_table.specs.declared.padded_slot.Slot.TheVariants.{Edition as Home, Book as Held};

use crate::book::Book;
use crate::edition::{Edition, first_editions};
use bench_times::nanoseconds;
use fw_base::OutOfMemory;
use rm_core::Heard;
use rm_table::{OpenTable, RmSeat, RmTable, Tried};
use std::alloc::{AllocError, Global};
use std::io;
use std::time::{Clock, Instant};

pub type Table = RmTable<Edition, Book>;

pub type Seat = RmSeat<Edition, Book>;

/// What a section on the table does between raise and check, and lower.
#[derive(Clone, Copy, Debug)]
pub enum Kind {
    /// Nothing.
    Words,
    /// The edition is taken out of its slot, read and put back.
    Edition,
    /// One try for the book, and an entry in it where it is free.
    Book,
}

/// A processor of a table, between two sections.
#[derive(Drop)]
pub struct Worker<'a> {
    table: &'a Table,
    seat: Seat,
    place: u32,
    pub ghost same: { seat.table_id ≡ table.now },
    pub ghost idle: { IsIdle seat.me.0 seat.me.1 },
    pub ghost at_place: { seat.me.0.place ≡ place },
    pub ghost above: { 0 < place },
    pub ghost within: { place ≤ 64 },
}

impl<'a> Worker<'a> {
    /// Splits off all seats of a new table.
    pub fn all(
        alloc: Global,
        table: &'a Table,
        operator: &mut Seat,
        processors: u32,
    ) -> Result<Vec<Worker<'a>>, AllocError>
        requires table { operator.old.table_id ≡ table.now }
        requires opening { OpensFrom 1 operator.old.me.0 operator.old.me.1 }
        requires count { operator.old.me.0.count ≡ processors }
        requires few { processors ≤ 64 }
    {
        let mut workers = Vec::with_capacity(alloc, processors as usize)?;
        for place in 1..processors + 1 {
            let seat = table.split_seat(operator, place);
            workers.push(Worker { table, seat, place })?;
        }
        Ok(workers)
    }

    /// So many sections of that kind. Answers their nanoseconds.
    pub fn sections(self, clock: &impl Clock, kind: Kind, count: u32) -> io::Result<u64> {
        let Worker {
            table,
            mut seat,
            place,
        } = self;
        let mut latest = 0;
        let start = Instant::now(clock)?;
        for _ in 0..count {
            latest = section_of(table, &mut seat, place, kind).max(latest);
        }
        let time = nanoseconds(clock, start)?;
        Ok(time.max(latest))
    }
}

/// Opens a table at number 1, of so many processors.
pub fn open_table(alloc: Global, processors: u32) -> Result<OpenTable<Edition, Book>, OutOfMemory>
    requires some { 0 < processors }
    requires few { processors ≤ 64 }
    ensures table { IfOk result (λ o. o.seat.table_id ≡ o.table) }
    ensures opening { IfOk result (λ o. OpensFrom 1 o.seat.me.0 o.seat.me.1) }
    ensures count { IfOk result (λ o. o.seat.me.0.count ≡ processors) }
{
    let editions = first_editions(alloc, processors)?;
    Ok(RmTable::open(alloc, editions, Book::new())?)
}

/// One section of that kind. Answers what it read.
fn section_of(table: &Table, seat: &mut Seat, place: u32, kind: Kind) -> u64
    requires table { seat.old.table_id ≡ table.now }
    requires idle { IsIdle seat.old.me.0 seat.old.me.1 }
    requires place { seat.old.me.0.place ≡ place }
    requires above { 0 < place }
    requires within { place ≤ 64 }
    ensures table { seat.new.table_id ≡ seat.old.table_id }
    ensures place { seat.new.me.0.place ≡ place }
    ensures idle { IsIdle seat.new.me.0 seat.new.me.1 }
    ensures begun { seat.new.me.0.part.sections ≡ seat.old.me.0.part.sections + 1 }
{
    match kind {
        Kind::Words => {
            section(table, seat);
            0
        }
        Kind::Edition => section_with_edition(table, seat, place),
        Kind::Book => u64::from(section_with_book(table, seat, place)),
    }
}

/// One section.
fn section(table: &Table, seat: &mut Seat) -> Heard
    requires table { seat.old.table_id ≡ table.now }
    requires idle { IsIdle seat.old.me.0 seat.old.me.1 }
    ensures table { seat.new.table_id ≡ seat.old.table_id }
    ensures place { seat.new.me.0.place ≡ seat.old.me.0.place }
    ensures idle { IsIdle seat.new.me.0 seat.new.me.1 }
    ensures begun { seat.new.me.0.part.sections ≡ seat.old.me.0.part.sections + 1 }
{
    table.raise(seat);
    let heard = table.check(seat);
    table.lower(seat);
    heard
}

/// In a section: takes the edition out of its slot, reads its number, and puts it back.
fn read_edition(table: &Table, seat: &mut Seat, place: u32) -> u64
    requires table { seat.old.table_id ≡ table.now }
    requires inside { IsInSection seat.old.me.0 seat.old.me.1 }
    requires place { seat.old.me.0.place ≡ place }
    ensures table { seat.new.table_id ≡ seat.old.table_id }
    ensures same { seat.new.me ≡ seat.old.me }
    ensures read { seat.old.me.1
        ≡ (place, Home (Some (record { number = result }))) ∷ rest seat.old.me.1 }
{
    let Some(edition) = table.exchange_edition(seat, place, None) else {
        unreachable!();
    };
    let number = edition.number;
    let _ = table.exchange_edition(seat, place, Some(edition));
    number
}

/// One section in which the edition is read. Answers its number, and 0 where the processor was refused.
fn section_with_edition(table: &Table, seat: &mut Seat, place: u32) -> u64
    requires table { seat.old.table_id ≡ table.now }
    requires idle { IsIdle seat.old.me.0 seat.old.me.1 }
    requires place { seat.old.me.0.place ≡ place }
    ensures table { seat.new.table_id ≡ seat.old.table_id }
    ensures place { seat.new.me.0.place ≡ place }
    ensures idle { IsIdle seat.new.me.0 seat.new.me.1 }
    ensures begun { seat.new.me.0.part.sections ≡ seat.old.me.0.part.sections + 1 }
{
    table.raise(seat);
    let number = match table.check(seat) {
        Heard::Held => read_edition(table, seat, place),
        _ => 0,
    };
    table.lower(seat);
    number
}

/// A processor in a section tries once for the book, and takes it out of its slot.
fn try_book(table: &Table, seat: &mut Seat) -> Option<Book>
    requires table { seat.old.table_id ≡ table.now }
    requires inside { IsInSection seat.old.me.0 seat.old.me.1 }
    ensures table { seat.new.table_id ≡ seat.old.table_id }
    ensures tried { MatchOption result
        ((holder : ℕ) × (seat.new.me ≡ (with_step seat.old.me.0 book_index holder, seat.old.me.1))
        × (holder ≢ 0))
        (λ book. seat.new.me
        ≡ (with_step (book_taken seat.old.me.0 book) book_index 0, (0, Held None) ∷ seat.old.me.1)) }
{
    match table.take_book(seat) {
        Tried::Taken => table.exchange_book(seat, None),
        Tried::HeldBy(_) => None,
    }
}

/// In a section: where the book is free, one entry in the processor's own list. Answers whether it was free.
fn enter_in_book(table: &Table, seat: &mut Seat, place: u32) -> bool
    requires table { seat.old.table_id ≡ table.now }
    requires inside { IsInSection seat.old.me.0 seat.old.me.1 }
    requires place { seat.old.me.0.place ≡ place }
    requires above { 0 < place }
    requires within { place ≤ 64 }
    ensures table { seat.new.table_id ≡ seat.old.table_id }
    ensures place { seat.new.me.0.place ≡ place }
    ensures inside { IsInSection seat.new.me.0 seat.new.me.1 }
    ensures sections { seat.new.me.0.part.sections ≡ seat.old.me.0.part.sections }
    ensures entered { IsTrue result
        → seat.new.me.0.part.book_taken ≡ seat.old.me.0.part.book_taken + 1 }
{
    let Some(mut book) = try_book(table, seat) else {
        return false;
    };
    book.add_entry(place);
    let _ = table.exchange_book(seat, Some(book));
    table.give_book(seat);
    true
}

/// One section with an entry in the book. Answers whether the book was free.
fn section_with_book(table: &Table, seat: &mut Seat, place: u32) -> bool
    requires table { seat.old.table_id ≡ table.now }
    requires idle { IsIdle seat.old.me.0 seat.old.me.1 }
    requires place { seat.old.me.0.place ≡ place }
    requires above { 0 < place }
    requires within { place ≤ 64 }
    ensures table { seat.new.table_id ≡ seat.old.table_id }
    ensures place { seat.new.me.0.place ≡ place }
    ensures idle { IsIdle seat.new.me.0 seat.new.me.1 }
    ensures begun { seat.new.me.0.part.sections ≡ seat.old.me.0.part.sections + 1 }
{
    table.raise(seat);
    let entered = match table.check(seat) {
        Heard::Held => enter_in_book(table, seat, place),
        _ => false,
    };
    table.lower(seat);
    entered
}

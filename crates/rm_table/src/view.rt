use crate::Part;
use rm_core::Phase;
use std::collections::LinkedList;

/// Whose seat it is.
#[derive(Clone, Copy)]
pub enum Role {
    /// Nobody's any more: it was joined into another.
    Spent,
    /// A processor's.
    Processor,
    /// The operator's, the one writer's. It is the opening seat too.
    Operator,
    /// A receipt's: it has the history that the operator had when it was made.
    Receipt,
}

/// What a seat knows. No value of it is made: it stands in the table's rule, for proofs. `E` and `B` are
/// the edition and the book, `T` the facts that a publication is made with, `L` an edition's name and
/// `I` an item of the book's lists.
pub struct View<E, B, T, L, I> {
    pub role: Role,
    /// The number of processors.
    pub count: u64,
    /// The processor's place, from 1; the operator's is one past the last, and a receipt's is 0.
    pub place: u64,
    pub phase: Phase,
    pub part: Part<E, L, I>,
    /// Whether it holds the lock behind.
    pub behind: bool,
    /// The book as taken, while it has it.
    pub book: Option<B>,
    /// The published number, for the operator; for a receipt the one when it was made.
    pub number: u64,
    /// The number at the opening.
    pub opened: u64,
    /// Name and tag of each edition published, one for each number from the opening one on. A receipt's
    /// are those when it was made.
    pub history: LinkedList<(L, T)>,
    /// The operator's own list, the book's list 0.
    pub own: LinkedList<I>,
    /// Whether the book is known to be ready.
    pub ready: bool,
    /// Whether the operator has published since it took the book.
    pub stale: bool,
    /// By place, whether the operator has revoked the processor since the last publication.
    pub revoked: LinkedList<bool>,
    /// By place, whether the operator has found the processor out since then.
    pub drained: LinkedList<bool>,
    /// Whether a seat was joined into this one.
    pub closing: bool,
    /// By place, what is kept of a processor whose seat isn't split off yet, or was joined again.
    pub kept: LinkedList<Option<Part<E, L, I>>>,
    /// Index of the word and value found or stored, of each step on a word that the seat made, but for the
    /// loads of a split and a join.
    pub steps: LinkedList<(u64, u64)>,
}

use std::collections::LinkedList;

/// What is kept of one processor. No value of it is made: it stands in what a seat knows, for proofs.
pub struct Part<E, L, I> {
    /// The sections that it has begun.
    pub sections: u64,
    /// The number that it last held or regained.
    pub held: u64,
    /// The greatest number that it was refused with since it last regained its token.
    pub refusal: Option<u64>,
    /// The number that it read since it took the lock behind.
    pub read: Option<u64>,
    /// The edition that its check found at home, while it is in.
    pub reading: Option<E>,
    /// Its own list of the book.
    pub own: LinkedList<I>,
    /// List 0 of the book as it was at the opening.
    pub first: LinkedList<I>,
    /// Number and name of each edition that its checks found, or that a receipt told it of.
    pub pairs: LinkedList<(u64, L)>,
    /// How often it took the lock behind.
    pub behind_taken: u64,
    /// How often it took the book.
    pub book_taken: u64,
}

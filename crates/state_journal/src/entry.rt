use state_asks::{Facts, Op, Reply};

/// What the state object met.
#[derive(Clone, Copy, Debug, PartialEq, Eq)]
pub enum Entry {
    /// The publication of the edition of this number.
    Publish(u64),
    /// An ask of a lane, 1 to 64, for its record of this number, and what was answered. The fields stand in
    /// this order so that an entry takes 64 bytes.
    Ask {
        lane: u16,
        op: Op,
        reply: Reply,
        at: u64,
    },
}

/// What stands in the lists by which contracts see a book that is shared: list 0 has the number of lanes
/// and then the facts of each publication, list k the asks of lane k.
#[derive(Drop)]
pub enum Item {
    Lanes(u32),
    Published(Facts),
    /// An ask, with the number of the last publication before it.
    Asked { after: u64, entry: Entry },
}

//! Packets in the order of their visits to a cache.
use test_frames::{DATAGRAM, ECHO, SYN};

/// Visits to a cache of a capacity, and how many of them find a verdict.
pub struct Row {
    pub name: &'static str,
    pub capacity: u32,
    /// Of each the edition, the packet, and the number of the rule that decides on it there.
    pub visits: &'static [(u64, &'static [u8], u32)],
    pub hits: u32,
}

pub static ROWS: [Row; 5] = [
    Row {
        name: "cache_of_one",
        capacity: 1,
        visits: &[
            (1, SYN, 100),
            (1, SYN, 100),
            (1, DATAGRAM, 65535),
            (1, SYN, 100),
        ],
        hits: 1,
    },
    Row {
        name: "cache_of_two",
        capacity: 2,
        visits: &[
            (1, SYN, 100),
            (1, SYN, 100),
            (1, DATAGRAM, 65535),
            (1, SYN, 100),
        ],
        hits: 2,
    },
    Row {
        name: "a hit becomes the most recent",
        capacity: 2,
        visits: &[
            (1, SYN, 100),
            (1, DATAGRAM, 65535),
            (1, SYN, 100),
            (1, ECHO, 200),
            (1, SYN, 100),
            (1, DATAGRAM, 65535),
        ],
        hits: 2,
    },
    Row {
        name: "another edition empties the cache",
        capacity: 2,
        visits: &[(1, SYN, 100), (2, SYN, 100), (2, SYN, 100), (1, SYN, 100)],
        hits: 1,
    },
    Row {
        name: "a large cache loses nothing",
        capacity: 65536,
        visits: &[
            (1, SYN, 100),
            (1, DATAGRAM, 65535),
            (1, ECHO, 200),
            (1, SYN, 100),
            (1, DATAGRAM, 65535),
            (1, ECHO, 200),
        ],
        hits: 3,
    },
];

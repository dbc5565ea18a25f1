use bench_times::nanoseconds;
use std::io;
use std::sync::atomic::{AtomicU64, Ordering};
use std::time::{Clock, Instant};

/// Two words of one thread, each on a cache line of 64 bytes that no other word shares.
#[derive(Drop)]
pub struct OwnWords {
    tracker: AtomicU64,
    _behind_tracker: [u64; 7],
    token: AtomicU64,
    _behind_token: [u64; 7],
}

impl OwnWords {
    pub fn new() -> OwnWords {
        OwnWords {
            tracker: AtomicU64::new(0),
            _behind_tracker: [0; 7],
            token: AtomicU64::new(0),
            _behind_token: [0; 7],
        }
    }

    /// What a section costs at least: a store, a load and a store, so many times. Answers the nanoseconds.
    pub fn rounds(&self, clock: &impl Clock, rounds: u32) -> io::Result<u64> {
        let start = Instant::now(clock)?;
        for round in 0..rounds {
            self.tracker.store(u64::from(round), Ordering::SeqCst);
            let token = self.token.load(Ordering::SeqCst);
            self.tracker
                .store(u64::from(round) + token.min(1), Ordering::SeqCst);
        }
        nanoseconds(clock, start)
    }
}

use crate::edition::Edition;
use bench_times::nanoseconds;
use std::alloc::{AllocError, Global};
use std::io;
use std::sync::{Arc, Mutex, RwLock, Wait};
use std::time::{Clock, Instant};

/// How an edition is shared by std's means.
#[derive(Clone, Copy, Debug)]
pub enum Means {
    /// Locked by readers, each beside the others.
    RwLock,
    /// Locked by one at a time.
    Mutex,
    /// By a counted pointer, which is cloned and dropped.
    Arc,
}

/// An edition, shared by each of std's means.
#[derive(Drop)]
pub struct Shared {
    rwlock: RwLock<Edition>,
    mutex: Mutex<Edition>,
    counted: Arc<Edition, Global>,
}

impl Shared {
    pub fn new(alloc: Global) -> Result<Shared, AllocError> {
        Ok(Shared {
            rwlock: RwLock::new(Edition { number: 1 }),
            mutex: Mutex::new(Edition { number: 1 }),
            counted: Arc::new(alloc, Edition { number: 1 })?,
        })
    }

    /// Reads the edition's number by these means, so many times. Answers the nanoseconds.
    pub fn rounds<R: Clock + Wait>(&self, rt: &R, means: Means, rounds: u32) -> io::Result<u64> {
        let mut latest = 0;
        let start = Instant::now(rt)?;
        for _ in 0..rounds {
            latest = self.number(rt, means).max(latest);
        }
        let time = nanoseconds(rt, start)?;
        Ok(time.max(latest))
    }

    /// The edition's number, and 0 where the counted pointer has too many clones.
    fn number(&self, rt: &impl Wait, means: Means) -> u64 {
        match means {
            Means::RwLock => self.rwlock.read(rt).number,
            Means::Mutex => self.mutex.lock(rt).number,
            Means::Arc => match Arc::try_clone(&self.counted) {
                Ok(own) => own.number,
                Err(_) => 0,
            },
        }
    }
}

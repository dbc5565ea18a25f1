use fw_base::Gate;
use std::alloc::Global;
use std::sync::atomic::{AtomicBool, AtomicU32, AtomicU64, AtomicUsize, Ordering};
use std::test::Fail;
use std::thread::yield_now;

/// How often a gate looks before it lets go.
const TURNS: u32 = 2_000_000;

/// How many calls a log has room for.
const EVENTS: usize = 64;

/// Waits until the counter is at least so much, at most so many turns; tells whether it came to that.
fn reaches(counter: &AtomicU32, least: u32) -> bool {
    for _turn in 0..TURNS {
        if counter.load(Ordering::SeqCst) >= least {
            return true;
        }
        yield_now();
    }
    false
}

/// Holds each lane inside until all are and until the operator was called so often, and the operator until all
/// lanes are inside.
#[derive(Drop)]
pub struct Meeting {
    lanes: u32,
    calls: u32,
    inside: AtomicU32,
    called: AtomicU32,
    late: AtomicBool,
}

impl Meeting {
    pub fn new(lanes: u32, calls: u32) -> Meeting {
        Meeting {
            lanes,
            calls,
            inside: AtomicU32::new(0),
            called: AtomicU32::new(0),
            late: AtomicBool::new(false),
        }
    }

    fn hold(&self, counter: &AtomicU32, least: u32) {
        if !reaches(counter, least) {
            self.late.store(true, Ordering::SeqCst);
        }
    }

    /// Whether all lanes were inside at once, and nobody was let go before.
    pub fn was_met(&self) -> bool {
        !self.late.load(Ordering::SeqCst)
            && self.inside.load(Ordering::SeqCst) == self.lanes
            && self.called.load(Ordering::SeqCst) == self.calls
    }
}

impl Gate for Meeting {
    fn before(&self, _lane: u32, _at: u64) {}

    fn inside(&self, _lane: u32, _at: u64) {
        let _before = self.inside.fetch_add(1, Ordering::SeqCst);
        self.hold(&self.inside, self.lanes);
        self.hold(&self.called, self.calls);
    }

    fn operator(&self, _line: u32) {
        let _before = self.called.fetch_add(1, Ordering::SeqCst);
        self.hold(&self.inside, self.lanes);
    }
}

/// Puts one commit between two packets of a lane. It holds the operator's first call until the lane is about to
/// take record 2; the lane there until the operator was called with line 4; and the operator in that call until the
/// lane is inside with record 2.
#[derive(Drop)]
pub struct Between {
    about: AtomicU32,
    last: AtomicU32,
    inside: AtomicU32,
    late: AtomicBool,
}

impl Between {
    pub fn new() -> Between {
        Between {
            about: AtomicU32::new(0),
            last: AtomicU32::new(0),
            inside: AtomicU32::new(0),
            late: AtomicBool::new(false),
        }
    }

    fn hold(&self, counter: &AtomicU32) {
        if !reaches(counter, 1) {
            self.late.store(true, Ordering::SeqCst);
        }
    }

    /// Whether a hold ended by its number of turns.
    pub fn was_late(&self) -> bool {
        self.late.load(Ordering::SeqCst)
    }
}

impl Gate for Between {
    fn before(&self, _lane: u32, at: u64) {
        if at == 2 {
            self.about.store(1, Ordering::SeqCst);
            self.hold(&self.last);
        }
    }

    fn inside(&self, _lane: u32, at: u64) {
        if at == 2 {
            self.inside.store(1, Ordering::SeqCst);
        }
    }

    fn operator(&self, line: u32) {
        if line == 4 {
            self.last.store(1, Ordering::SeqCst);
            self.hold(&self.inside);
        } else {
            self.hold(&self.about);
        }
    }
}

/// Which call of a gate it was.
#[derive(Clone, Copy, Debug, PartialEq, Eq)]
pub enum Call {
    Before(u32, u64),
    Inside(u32, u64),
    Operator(u32),
}

/// The number under which a log keeps a call.
fn number_of(call: Call) -> u64 {
    match call {
        Call::Before(lane, at) => u64::from(lane).saturating_mul(1000).saturating_add(at),
        Call::Inside(lane, at) => u64::from(lane)
            .saturating_mul(1000)
            .saturating_add(at)
            .saturating_add(100_000),
        Call::Operator(line) => u64::from(line).saturating_add(200_000),
    }
}

/// Keeps the calls in the order in which they came.
#[derive(Drop)]
pub struct Log {
    events: Vec<AtomicU64>,
    used: AtomicUsize,
}

impl Log {
    pub fn new(alloc: Global) -> Result<Log, Fail> {
        let mut events = Vec::new(alloc);
        for _event in 0..EVENTS {
            events.push(AtomicU64::new(0))?;
        }
        Ok(Log {
            events,
            used: AtomicUsize::new(0),
        })
    }

    fn note(&self, call: Call) {
        let place = self.used.fetch_add(1, Ordering::SeqCst);
        if let Some(slot) = self.events.get(place) {
            slot.store(number_of(call), Ordering::SeqCst);
        }
    }

    /// Whether these calls came, in this order, and none other of their kind: for a lane its own, else the operator's.
    pub fn has_calls(&self, lane: Option<u32>, calls: &[Call]) -> bool {
        let mut met = 0usize;
        for event in self.events.iter() {
            let number = event.load(Ordering::SeqCst);
            if is_of(number, lane) {
                if calls.get(met).map(|call| number_of(*call)) != Some(number) {
                    return false;
                }
                met = met.saturating_add(1);
            }
        }
        met == calls.len()
    }
}

/// Whether the call under that number is the lane's, else the operator's.
fn is_of(number: u64, lane: Option<u32>) -> bool {
    match lane {
        Some(lane) => 0 < number && number < 200_000 && number % 100_000 / 1000 == u64::from(lane),
        None => number >= 200_000,
    }
}

impl Gate for Log {
    fn before(&self, lane: u32, at: u64) {
        self.note(Call::Before(lane, at));
    }

    fn inside(&self, lane: u32, at: u64) {
        self.note(Call::Inside(lane, at));
    }

    fn operator(&self, line: u32) {
        self.note(Call::Operator(line));
    }
}

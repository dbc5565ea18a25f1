use std::process::Abort;
use std::sync::atomic::{AtomicU32, Ordering};
use std::thread::yield_now;

/// How often a wait of a test looks, before the test fails.
pub(crate) const LOOKS: u32 = 10_000_000;

/// Waits until the word is at least that.
pub(crate) fn wait_for(rt: &impl Abort, word: &AtomicU32, least: u32) {
    for _ in 0..LOOKS {
        if word.load(Ordering::SeqCst) >= least {
            return;
        }
        yield_now();
    }
    panic!(rt; "nobody came");
}

use crate::edition::Edition;
use crate::ledger::Ledger;
use rm_table::Closed;
use std::process::Abort;

/// Compares what a lock left that published up to that number, with a tracker for each processor.
pub(crate) fn check_closed(
    rt: &impl Abort,
    closed: &Closed<Edition, Ledger>,
    trackers: &[u64],
    number: u64,
) {
    assert_eq!(rt; closed.trackers.as_slice(), trackers);
    assert_eq!(rt; closed.editions.len(), trackers.len());
    for edition in &closed.editions {
        assert_eq!(rt; edition.number, number);
    }
    assert_eq!(rt;
        (closed.book.number, closed.book.publications),
        (number, number)
    );
}

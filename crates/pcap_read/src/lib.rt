//! Captures in the classic pcap format, version 2.4, read record by record from a source.
//!
//! `specs/Reading.antt` says what a whole string of bytes is: its records and the place where they end.
//! A capture gives these records and stops so, whatever sizes the source's reads have: `IsReading` ties an
//! open capture to the bytes that it took and the records that it gave, and each call of `next` goes on
//! from there.
//!
//! Tests: `input_tests`, src/captures.
#![tactic(auto)]

pub use capture::Capture;
pub use capture_fault::{CaptureFault, OpenFault};
pub use counting::{Counted, count_records};
pub use laws::one_front;
pub use limits::{MOST_RECORD_BYTES, MOST_RECORDS};
pub use record::Record;

mod capture;
mod capture_fault;
mod counting;
mod filling;
mod finding;
mod format;
mod header;
mod laws;
mod limits;
mod numbers;
mod opening;
mod record;
mod records;
mod window;

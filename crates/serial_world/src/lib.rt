//! The world for one thread: editions, the one book of the states, and lanes whose numbers, refusals and
//! trackers are plain fields.
//!
//! Tests: rows through its calls: `record_tests`, src/records.
#![tactic(auto)]

pub use open_serial::OpenSerial;
pub use serial_desk::SerialDesk;
pub use serial_inside::SerialInside;
pub use serial_lane::{SerialEntry, SerialLane};
pub use serial_world::SerialWorld;

mod closing;
mod judging;
mod lane_state;
mod open_serial;
mod opening;
mod publishing;
mod sections;
mod serial_book;
mod serial_desk;
mod serial_inside;
mod serial_lane;
mod serial_world;

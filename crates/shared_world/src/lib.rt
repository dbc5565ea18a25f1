//! The world for many threads: lanes and a desk on the read-mostly lock, over shared editions and the one
//! book of the states.
//!
//! Tests: `world_tests`, in threads.
#![tactic(auto)]

pub use desk::Desk;
pub use inside::Inside;
pub use lane::Lane;
pub use lane_entry::LaneEntry;
pub use open_world::OpenWorld;
pub use world::World;

mod asking;
mod closing;
mod closing_room;
mod committing;
mod desk;
mod inside;
mod judging;
mod lane;
mod lane_calls;
mod lane_entry;
mod open_world;
mod opening;
mod padded_work;
mod preparing;
mod shared_book;
mod world;

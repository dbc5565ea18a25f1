//! The lookup tables of the packet filter: prefixes with values, of which the longest that has an
//! address answers, and numbers with values, of which the equal one answers.
//!
//! Tests: `chain_tests`, src/lookups.
#![tactic(auto)]

pub use addr_table::AddrTable;
pub use insert_fault::InsertFault;
pub use number_table::NumberTable;
pub use piece::Piece;
pub use shared_table::SharedTable;
pub use table::Table;
pub use tables::Tables;

mod addr_table;
mod change;
mod entries;
mod insert_fault;
mod intervals;
mod number_table;
mod piece;
mod pieces;
mod shared_table;
mod table;
mod tables;

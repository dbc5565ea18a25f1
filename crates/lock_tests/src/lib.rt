//! Tests of the read-mostly lock: of its core, its table, its calls, and of readers that were told of
//! publications. They stand over the public calls of those crates alone.
#![tactic(auto)]

#[cfg(test)]
mod closed;
#[cfg(test)]
mod core_rows;
#[cfg(test)]
mod edition;
mod entry_counts;
#[cfg(test)]
mod ledger;
#[cfg(test)]
mod lock_rows;
mod marked_edition;
#[cfg(test)]
mod table_rows;
#[cfg(test)]
mod told_rows;

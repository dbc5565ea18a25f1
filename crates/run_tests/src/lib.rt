//! Tests of whole runs over memory by the public calls of replay_driver, run_driver and run_laws: the worked rows.
//! Also of what run_audit says of a report beside no record.
#![tactic(auto)]

#[cfg(test)]
mod openings;
#[cfg(test)]
mod runs;

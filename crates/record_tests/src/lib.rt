//! Tests of the serial world, of records and of their laws, by the public calls of serial_world, fw_world, fw_report
//! and record_laws: worked rows of one lane and of two. Also of what a replay goes by: which record and which line
//! come next (serial_schedule), and made scripts and captures (load_maker).
#![tactic(auto)]

#[cfg(test)]
mod loads;
#[cfg(test)]
mod records;
#[cfg(test)]
mod schedules;

//! Tests of the report's text by the public calls of fw_report.
#![tactic(auto)]

#[cfg(test)]
mod reports;

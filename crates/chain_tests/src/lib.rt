//! Tests of tables, a configuration and its commands by the public calls of lookup_tables, rule_chain and rule_edits.
#![tactic(auto)]

#[cfg(test)]
mod commands;
#[cfg(test)]
mod lookups;

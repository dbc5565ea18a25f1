use crate::RuleList;
use fw_base::{Addr, Name};
use fw_rule::Settings;
use lookup_tables::Tables;
use std::sync::Arc;

/// The parts of a configuration, for whoever changes it. Rules, tables together, addresses and names stand behind
/// shared values: a configuration that is made from another one shares with it what it doesn't change.
#[derive(Clone, Drop)]
pub struct ConfigParts {
    pub rules: RuleList,
    /// The disabled sets, as the bits of a mask.
    pub disabled: u32,
    pub tables: Arc<Tables>,
    /// The host's own addresses.
    pub locals: Arc<Vec<Addr>>,
    pub settings: Settings,
    /// The flow names by their numbers.
    pub names: Arc<Vec<Name>>,
    /// The greatest identity that a rule was given.
    pub greatest_id: u32,
    /// The greatest counter number that a rule was given.
    pub greatest_counter: u32,
}

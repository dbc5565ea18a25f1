ghost use Rattle.std.specs.Prelude.{◌≡◌, ◌+◌, IfOk, map};
ghost use Rattle.std.specs.Arc.{arc_value};
ghost use Rattle.std.specs.Option.{option_copied};
ghost use Rattle.fw_rule.specs.Values.{values_of};
ghost use Rattle.lookup_tables.specs.Tables.{table_named};
ghost use Rattle.rule_chain.specs.Chain.{IsConfiguration};
ghost use Rattle.rule_chain.specs.Configuration.{Configuration};
ghost use Rattle.rule_chain.specs.First.{first_configuration};
ghost use Rattle.rule_chain.specs.LastRule as lists;
ghost use Rattle.rule_chain.specs.Parts.{configuration_of};

use crate::names::first_names;
use crate::{ConfigParts, RuleList};
use fw_base::{Addr, Name, OutOfMemory};
use fw_rule::{Action, AddrItem, AddrSpec, Body, Family, Items, Rule, Settings, default_settings};
use lookup_tables::{Table, Tables};
use std::alloc::Global;
use std::marker::Model;
use std::sync::Arc;

/// The number of the rule that each list ends with, and that no command changes but `zero`.
pub const LAST_NUMBER: u16 = 65_535;

/// The set that can't be disabled, moved or exchanged, and that `flush` leaves.
pub const LAST_SET: u8 = 31;

/// How many rules a configuration may hold, rule 65535 among them.
pub const MOST_RULES: usize = 65_535;

/// How many counter numbers may be given out, number 0 among them.
pub const MOST_COUNTERS: u32 = 16_777_216;

/// A configuration of the packet filter: its rules in order, its sets, tables, settings and flow names (ipfw(8),
/// "RULESET"). Contracts see it as a plain `Configuration`.
///
/// Its rules, its tables together, each table, its addresses and its names stand behind shared values, so
/// that one made from it by a command copies only those of them that the command changes.
#[derive(Clone, Drop)]
pub struct Config {
    parts: ConfigParts,
}

impl Model for Config {
    ghost use Rattle.rule_chain.specs.Chain.{IsConfiguration};
    ghost use Rattle.rule_chain.specs.Configuration.{Configuration};
    ghost use Rattle.rule_chain.specs.Parts.{configuration_of};

    ghost Value = { Configuration };

    ghost view = { λ c. configuration_of c.parts };

    ghost invariant = { λ c. IsConfiguration (configuration_of c.parts) };
}

impl Config {
    /// The configuration that stands before any command: rule 65535 alone, all sets enabled, no table.
    pub fn new(alloc: Global) -> Result<Config, OutOfMemory>
        ensures { IfOk result (λ config. config ≡ first_configuration) }
    {
        let mut rules = Vec::new(alloc);
        rules.push(Arc::new(alloc, last_rule(alloc)?)?)?;
        Ok(Config::from_parts(ConfigParts {
            rules: RuleList::new(alloc, rules)?,
            disabled: 0,
            tables: Arc::new(alloc, Tables::new(alloc))?,
            locals: Arc::new(alloc, Vec::new(alloc))?,
            settings: default_settings(),
            names: Arc::new(alloc, first_names(alloc)?)?,
            greatest_id: 0,
            greatest_counter: 0,
        }))
    }

    /// The configuration that has these parts.
    pub fn from_parts(parts: ConfigParts) -> Config
        requires { IsConfiguration (configuration_of parts) }
        ensures { result ≡ configuration_of parts }
    {
        Config { parts }
    }

    /// Its parts.
    pub fn into_parts(self) -> ConfigParts
        ensures value { configuration_of result ≡ self }
        ensures lawful { IsConfiguration self }
    {
        self.parts
    }

    /// The rules in order: by number, those of one number in the order of their `add`, rule 65535 last.
    pub fn rules(&self) -> &[Arc<Rule>]
        ensures value { map arc_value result.now ≡ self.now.rules }
        ensures lawful { IsConfiguration self.now }
    {
        self.parts.rules.rules()
    }

    /// The disabled sets, as the bits of a mask. Bit 31 is clear.
    pub fn disabled(&self) -> u32
        ensures { result ≡ self.now.disabled }
    {
        self.parts.disabled
    }

    /// The settings of dynamic states.
    pub fn settings(&self) -> Settings
        ensures { values_of result ≡ self.now.values }
    {
        self.parts.settings
    }

    /// The flow names by their numbers: `default` first, and each other since the first `add` that named
    /// it; 1 to 64, no two equal. That of each rule is among them.
    pub fn names(&self) -> &[Name]
        ensures value { result.now ≡ self.now.names }
        ensures lawful { IsConfiguration self.now }
    {
        &self.parts.names
    }

    /// The host's own addresses, in the order in which they were added.
    pub fn locals(&self) -> &[Addr]
        ensures { result.now ≡ self.now.locals }
    {
        &self.parts.locals
    }

    /// How many counter numbers were given out, number 0 among them: 1 to 16,777,216. Each rule's is
    /// below it.
    pub fn counters(&self) -> u32
        ensures { result ≡ self.now.greatest_counter + 1 }
    {
        self.parts.greatest_counter + 1
    }

    /// The table of that name; `None` exactly where there is none.
    pub fn table(&self, name: &Name) -> Option<&Table>
        ensures { option_copied result ≡ table_named self.now.tables name.now }
    {
        self.parts.tables.get(name)
    }

    /// The tables under their names.
    pub fn tables(&self) -> &Tables
        ensures { result.now ≡ self.now.tables }
    {
        &self.parts.tables
    }
}

/// Every address.
fn any_address(alloc: Global) -> Result<AddrSpec, OutOfMemory>
    ensures { IfOk result (λ spec. spec ≡ lists.any_address) }
{
    let mut items = Vec::new(alloc);
    items.push(AddrItem::Any)?;
    Ok(AddrSpec {
        negated: false,
        items: Items::from_vec(items),
    })
}

/// `65535 set 31 deny ip from any to any`
fn last_rule(alloc: Global) -> Result<Rule, OutOfMemory>
    ensures { IfOk result (λ rule. rule ≡ lists.last_rule 0) }
{
    let body = Body {
        family: Family::AnyIp,
        protocol: 0,
        source: any_address(alloc)?,
        source_ports: None,
        destination: any_address(alloc)?,
        destination_ports: None,
        options: Items::from_vec(Vec::new(alloc)),
        state: None,
        state_at: 0,
    };
    Ok(Rule {
        number: LAST_NUMBER,
        set: LAST_SET,
        id: 0,
        counter: 0,
        action: Action::Deny,
        log: None,
        body: Some(body),
    })
}

ghost use Rattle.std.specs.Prelude.{◌≡◌};

use fw_base::{Addr, Name};
use fw_rule::Settings;
use lookup_tables::Tables;
use rule_chain::{Config, ConfigParts, RuleList};
use std::marker::Model;
use std::sync::Arc;

/// A configuration that a command changes part by part. Contracts see it as they see a `Config`, and what holds in
/// every configuration holds of it wherever it is whole.
#[derive(Drop)]
pub(crate) struct Edited {
    pub(crate) rules: RuleList,
    pub(crate) disabled: u32,
    pub(crate) tables: Arc<Tables>,
    pub(crate) locals: Arc<Vec<Addr>>,
    pub(crate) settings: Settings,
    pub(crate) names: Arc<Vec<Name>>,
    pub(crate) greatest_id: u32,
    pub(crate) greatest_counter: u32,
}

impl Model for Edited {
    ghost use Rattle.std.specs.Arc.{arc_value};
    ghost use Rattle.fw_rule.specs.Values.{values_of};
    ghost use Rattle.rule_chain.specs.Chain.{IsConfiguration};
    ghost use Rattle.rule_chain.specs.Configuration.{Configuration};

    ghost Value = { Configuration };

    ghost view = { λ c. record {
      rules = c.rules;
      disabled = c.disabled;
      tables = arc_value c.tables;
      locals = (arc_value c.locals).items;
      values = values_of c.settings;
      names = (arc_value c.names).items;
      greatest_id = c.greatest_id;
      greatest_counter = c.greatest_counter;
    } };

    ghost invariant = { λ c.
        IsConfiguration (record {
          rules = c.rules;
          disabled = c.disabled;
          tables = arc_value c.tables;
          locals = (arc_value c.locals).items;
          values = values_of c.settings;
          names = (arc_value c.names).items;
          greatest_id = c.greatest_id;
          greatest_counter = c.greatest_counter;
        }) };
}

impl Edited {
    /// The configuration, to be changed.
    pub(crate) fn of(config: Config) -> Edited
        ensures { result ≡ config }
    {
        let parts = config.into_parts();
        Edited {
            rules: parts.rules,
            disabled: parts.disabled,
            tables: parts.tables,
            locals: parts.locals,
            settings: parts.settings,
            names: parts.names,
            greatest_id: parts.greatest_id,
            greatest_counter: parts.greatest_counter,
        }
    }

    /// The configuration that it is now.
    pub(crate) fn into_config(self) -> Config
        ensures { result ≡ self }
    {
        Config::from_parts(ConfigParts {
            rules: self.rules,
            disabled: self.disabled,
            tables: self.tables,
            locals: self.locals,
            settings: self.settings,
            names: self.names,
            greatest_id: self.greatest_id,
            greatest_counter: self.greatest_counter,
        })
    }
}

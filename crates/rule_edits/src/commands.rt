ghost use Rattle.std.specs.Prelude.{◌≡◌};
ghost use Rattle.fw_rule.specs.Settings.{IsInRange};
ghost use Rattle.fw_rule.specs.WellFormed.{IsWellFormed};
ghost use Rattle.rule_edits.specs.Answers.{Gives};
ghost use Rattle.rule_edits.specs.Apply as spec;
ghost use Rattle.rule_edits.specs.Changing.{IsChanging};

use crate::ApplyFault;
use crate::edited::Edited;
use crate::locals::with_addresses;
use crate::owned::own_tables;
use crate::table_changes::change_tables;
use crate::values::changed;
use fw_base::{Addr, Name};
use fw_rule::{Command, Setting, TableCommand};
use rule_chain::Config;
use std::alloc::Global;
use std::sync::Arc;

/// The configuration after a command that changes it (`is_changing`), or its first refusal. This one
/// stays as it is; the new one has its rules and its tables, and copies of those alone that the command
/// changes.
pub fn apply(alloc: Global, config: &Config, command: &Command) -> Result<Config, ApplyFault>
    requires well_formed { IsWellFormed command.now }
    requires changing { IsChanging command.now }
    ensures { Gives result (spec.apply config.now command.now) }
{
    apply_owned(alloc, config.clone()?, command)
}

/// The same where this configuration isn't wanted any more: what no other configuration has isn't
/// copied, and an `add` takes logarithmic time, and one move of the rules behind it. A refusal drops
/// the configuration.
pub fn apply_owned(alloc: Global, config: Config, command: &Command) -> Result<Config, ApplyFault>
    requires well_formed { IsWellFormed command.now }
    requires changing { IsChanging command.now }
    ensures { Gives result (spec.apply config command.now) }
{
    let after = Edited::of(config).apply(alloc, command)?;
    Ok(after.into_config())
}

impl Edited {
    fn apply(self, alloc: Global, command: &Command) -> Result<Edited, ApplyFault>
        requires well_formed { IsWellFormed command.now }
        requires changing { IsChanging command.now }
        ensures { Gives result (spec.apply self command.now) }
    {
        match command {
            Command::Add(draft) => self.add_rule(alloc, draft.copy(alloc)?),
            Command::Delete(numbers) => self.delete_rules(alloc, numbers.as_slice()),
            Command::DeleteSet(set) => self.delete_set(alloc, *set),
            Command::Flush => self.flush_rules(alloc),
            Command::Zero(numbers) => self.zero_counters(alloc, numbers.as_slice()),
            Command::ListRules => Ok(self),
            Command::SetMask { disable, enable } => self.set_mask(*disable, *enable),
            Command::MoveSet { from, to } => self.move_set(alloc, *from, *to),
            Command::MoveRule { number, to } => self.move_rule(alloc, *number, *to),
            Command::SwapSets { first, second } => self.swap_sets(alloc, *first, *second),
            Command::Table(name, command) => self.change_table(alloc, name, command),
            Command::Sysctl { setting, value } => Ok(self.change_setting(*setting, *value)),
            Command::Local(addresses) => self.add_locals(alloc, addresses.as_slice()),
        }
    }

    #[tactic(auto, unfolding(crate::specs::Apply::change_table))]
    fn change_table(
        mut self,
        alloc: Global,
        name: &Name,
        command: &TableCommand,
    ) -> Result<Edited, ApplyFault>
        ensures { Gives result (spec.change_table self name.now command.now) }
    {
        let tables = own_tables(self.tables)?;
        let changed = change_tables(alloc, tables, self.rules.rules(), name, command)?;
        self.tables = Arc::new(alloc, changed)?;
        Ok(self)
    }

    fn change_setting(mut self, setting: Setting, value: u32) -> Edited
        requires { IsInRange setting value }
        ensures { result ≡ spec.change_setting self setting value }
    {
        self.settings = changed(self.settings, setting, value);
        self
    }

    #[tactic(auto, unfolding(crate::specs::Apply::add_locals))]
    fn add_locals(mut self, alloc: Global, addresses: &[Addr]) -> Result<Edited, ApplyFault>
        ensures { Gives result (spec.add_locals self addresses.now) }
    {
        self.locals = with_addresses(alloc, self.locals, addresses)?;
        Ok(self)
    }
}

ghost use Rattle.std.specs.Prelude.{◌≡◌};
ghost use Rattle.fw_rule.specs.WellFormed.{IsWellFormed};
ghost use Rattle.rule_edits.specs.Changing.{IsChanging};
ghost use Rattle.serial_world.specs.Steps.{Commits};

use crate::{SerialDesk, SerialWorld};
use fw_rule::Command;
use fw_world::CommitFault;
use std::alloc::Global;

impl SerialWorld {
    /// Publishes what the command makes of the last edition as the next one, and answers its number. Each
    /// lane of the world is one of it still and stands for its inputs, and the desk stands for one command
    /// more. All memory is taken before.
    pub fn commit(
        &mut self,
        alloc: Global,
        desk: SerialDesk,
        command: &Command,
    ) -> (SerialDesk, Result<u64, CommitFault>)
        requires desk { desk ≡ self.old.editions }
        requires command { IsWellFormed command.now }
        requires changing { IsChanging command.now }
        ensures { Commits self.old self.new desk result.0 command.now result.1 }
    {
        let mut desk = desk;
        let outcome = self.edit(alloc, &mut desk, command);
        (desk, outcome)
    }

    /// The same, where the desk stays in its place.
    pub fn edit(
        &mut self,
        alloc: Global,
        desk: &mut SerialDesk,
        command: &Command,
    ) -> Result<u64, CommitFault>
        requires desk { desk.old ≡ self.old.editions }
        requires command { IsWellFormed command.now }
        requires changing { IsChanging command.now }
        ensures { Commits self.old self.new desk.old desk.new command.now result }
    {
        self.held.publish(alloc, &mut desk.store, command)
    }
}

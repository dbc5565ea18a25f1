ghost use Rattle.std.specs.Prelude.{◌≡◌};
ghost use Rattle.rule_edits.specs.Changing as spec;

use fw_rule::{Command, TableCommand};

fn changes_table(command: &TableCommand) -> bool
    ensures { result ≡ spec.changes_table command.now }
{
    match command {
        TableCommand::Create(_)
        | TableCommand::Destroy
        | TableCommand::Add(..)
        | TableCommand::Remove(_)
        | TableCommand::Clear
        | TableCommand::SwapWith(_) => true,
        TableCommand::ListEntries => false,
    }
}

/// Whether the command is one of those that change a configuration: all but `list` and `table NAME list`.
pub fn is_changing(command: &Command) -> bool
    ensures { result ≡ spec.is_changing command.now }
{
    match command {
        Command::Add(_)
        | Command::Delete(_)
        | Command::DeleteSet(_)
        | Command::Flush
        | Command::Zero(_)
        | Command::SetMask { .. }
        | Command::MoveSet { .. }
        | Command::MoveRule { .. }
        | Command::SwapSets { .. }
        | Command::Sysctl { .. }
        | Command::Local(_) => true,
        Command::ListRules => false,
        Command::Table(_, command) => changes_table(command),
    }
}

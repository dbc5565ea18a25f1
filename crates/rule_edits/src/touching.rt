ghost use Rattle.std.specs.Prelude.{◌≡◌};
ghost use Rattle.rule_edits.specs.Touching as spec;

use fw_rule::Command;

/// Whether the command may change a rule, take one away or add one. After any other the configuration has
/// the rules and the flow names that it had (`untouched_rules_stay`).
pub fn touches_rules(command: &Command) -> bool
    ensures { result ≡ spec.touches_rules command.now }
{
    match command {
        Command::Add(_)
        | Command::Delete(_)
        | Command::DeleteSet(_)
        | Command::Flush
        | Command::Zero(_)
        | Command::MoveSet { .. }
        | Command::MoveRule { .. }
        | Command::SwapSets { .. } => true,
        Command::ListRules
        | Command::SetMask { .. }
        | Command::Table(..)
        | Command::Sysctl { .. }
        | Command::Local(_) => false,
    }
}

ghost use Rattle.std.specs.Prelude.{◌≡◌};
ghost use Rattle.rule_edits.specs.Moves.{set_after};

use fw_rule::Rule;

/// Which rules change their set, and how.
#[derive(Clone, Copy)]
pub(crate) enum Moves {
    /// Those of the one set, into the other.
    Set { from: u8, to: u8 },
    /// Those of the number, into the set.
    Number { number: u16, to: u8 },
    /// Those of each of the two sets, into the other.
    Swap { first: u8, second: u8 },
}

impl Moves {
    /// The set of a rule after the moves.
    pub(crate) fn set_after(self, rule: &Rule) -> u8
        ensures { result ≡ set_after self rule.now }
    {
        match self {
            Moves::Set { from, to } => { if rule.set == from { to } else { rule.set } }
            Moves::Number { number, to } => { if rule.number == number { to } else { rule.set } }
            Moves::Swap { first, second } => {
                if rule.set == first {
                    second
                } else if rule.set == second {
                    first
                } else {
                    rule.set
                }
            }
        }
    }
}

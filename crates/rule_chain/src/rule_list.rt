ghost use Rattle.std.specs.Prelude.{◌≡◌, IfOk, map};
ghost use Rattle.std.specs.Arc.{arc_value};

use fw_base::OutOfMemory;
use fw_rule::Rule;
use std::alloc::Global;
use std::marker::Model;
use std::sync::Arc;

/// The rules of a configuration in their order. Several configurations may have one list at once, in any
/// threads, and none of them changes it. Contracts see it as the rules themselves.
#[derive(Clone, Drop)]
pub struct RuleList {
    rules: Arc<Vec<Arc<Rule>>>,
}

impl Model for RuleList {
    ghost use Rattle.std.specs.Prelude.{List, map};
    ghost use Rattle.std.specs.Arc.{arc_value};
    ghost use Rattle.fw_rule.specs.declared.rule.Rule.{Rule};

    ghost Value = { List Rule };

    ghost view = { λ l. map arc_value (arc_value l.rules).items };
}

impl RuleList {
    /// The list of these rules.
    pub fn new(alloc: Global, rules: Vec<Arc<Rule>>) -> Result<RuleList, OutOfMemory>
        ensures { IfOk result (λ list. list ≡ map arc_value rules.items) }
    {
        Ok(RuleList {
            rules: Arc::new(alloc, rules)?,
        })
    }

    /// The rules in order.
    pub fn rules(&self) -> &[Arc<Rule>]
        ensures { map arc_value result.now ≡ self.now }
    {
        self.rules.as_slice()
    }

    /// The rules to change: the list itself where no other configuration has it, and else a second one of
    /// the same rules, not of copies.
    pub fn own(self, alloc: Global) -> Result<Vec<Arc<Rule>>, OutOfMemory>
        ensures { IfOk result (λ rules. map arc_value rules.items ≡ self) }
    {
        match Arc::try_unwrap(self.rules) {
            Ok(rules) => Ok(rules),
            Err(shared) => share_rules(alloc, shared.as_slice()),
        }
    }
}

/// The same rules, and not copies of them.
fn share_rules(alloc: Global, rules: &[Arc<Rule>]) -> Result<Vec<Arc<Rule>>, OutOfMemory>
    ensures { IfOk result (λ shared. map arc_value shared.items ≡ map arc_value rules.now) }
{
    let mut shared = Vec::with_capacity(alloc, rules.len())?;
    for rule in rules {
        shared.push(Arc::try_clone(rule)?)?;
    }
    Ok(shared)
}

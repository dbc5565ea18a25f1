ghost use Rattle.std.specs.Prelude.{◌≡◌, IsTrue, IfOk};
ghost use Rattle.state_asks.specs.Facts as facts;
ghost use Rattle.state_asks.specs.Facts.{is_rule_list};

use crate::Identities;
use fw_base::OutOfMemory;
use fw_rule::Settings;

/// What a publication tells the states.
#[derive(Debug, Drop)]
pub struct Facts {
    /// The number of the edition.
    pub number: u64,
    /// The identities of its rules: they ascend strictly and begin with 0, that of rule 65535.
    pub rules: Identities,
    /// Its settings.
    pub settings: Settings,
    ghost ordered: { IsTrue (is_rule_list rules) },
}

impl Facts {
    /// The same facts, a second time: no list is copied.
    pub fn share(&self) -> Result<Facts, OutOfMemory>
        ensures { IfOk result (λ facts. facts ≡ self.now) }
    {
        Ok(Facts {
            number: self.number,
            rules: self.rules.clone()?,
            settings: self.settings,
        })
    }
}

/// Whether the identities ascend strictly and begin with 0, as those of `Facts` do.
pub fn is_ordered(rules: &[u32]) -> bool
    ensures { result ≡ is_rule_list rules.now }
{
    match rules.split_first() {
        None => false,
        Some((first, others)) => *first == 0 && is_rising(0, others),
    }
}

/// Whether each identity is above the one before it, and the first above `least`.
fn is_rising(least: u32, rules: &[u32]) -> bool
    ensures { result ≡ facts.rises_from least rules.now }
{
    let mut least = least;
    for id in rules {
        if *id <= least {
            return false;
        }
        least = *id;
    }
    true
}

ghost use Rattle.std.specs.Prelude.{◌≡◌, ◌-◌, ◌^◌, ◌<◌, IfOk};
ghost use Rattle.std.specs.List.{flat_map};
ghost use Rattle.std.specs.HashMap.{get};
ghost use Rattle.report_values.specs.KnownPlaces as spec;
ghost use Rattle.report_values.specs.Outcomes.{rule_part};

use crate::KnownRule;
use fw_base::OutOfMemory;
use std::alloc::Global;
use std::collections::HashMap;
use std::marker::Model;

/// From where to where the rules of one number in one edition stand among all. Others may stand between them.
#[derive(Clone, Copy)]
pub(crate) struct Stretch {
    /// The place of the first.
    first: usize,
    /// The place behind the last.
    end: usize,
}

/// The rules of editions, which are found by their edition and number. Contracts see their list.
#[derive(Drop)]
pub struct KnownRules<'a> {
    rules: &'a [KnownRule<'a>],
    stretches: HashMap<(u64, u16), Stretch>,
}

impl<'a> Model for KnownRules<'a> {
    ghost use Rattle.std.specs.Prelude.{List};
    ghost use Rattle.report_values.specs.KnownPlaces.{AreFound};
    ghost use Rattle.report_values.specs.declared.rules.KnownRule.{KnownRule};

    ghost Value = { List KnownRule };

    ghost view = { λ k. k.rules.now };

    ghost invariant = { λ k. AreFound k.rules.now k.stretches };
}

/// The stretch that ends behind this place, where this one was found so far.
fn stretch_to(found: Option<Stretch>, place: usize) -> Stretch
    requires { place < 2 ^ 64 - 1 }
    ensures { result ≡ spec.stretch_to found place }
{
    match found {
        Some(stretch) => Stretch {
            first: stretch.first,
            end: place + 1,
        },
        None => Stretch {
            first: place,
            end: place + 1,
        },
    }
}

/// The stretch of the rules of this number in this edition, if there are any.
fn stretch_at(stretches: &HashMap<(u64, u16), Stretch>, pair: (u64, u16)) -> Option<Stretch>
    ensures { result ≡ get spec.pair_eq stretches.now pair }
{
    stretches.get(&pair).copied()
}

/// Where the rules of each number in each edition stand.
fn stretches_of(
    alloc: Global,
    rules: &[KnownRule<'_>],
) -> Result<HashMap<(u64, u16), Stretch>, OutOfMemory>
    ensures { IfOk result (spec.AreFound rules.now) }
{
    let mut stretches = HashMap::new(alloc);
    for (place, rule) in rules.iter().enumerate() {
        let pair = (rule.edition, rule.number);
        let stretch = stretch_to(stretch_at(&stretches, pair), place);
        stretches.insert(pair, stretch)?;
    }
    Ok(stretches)
}

impl<'a> KnownRules<'a> {
    /// These rules.
    pub fn new(alloc: Global, rules: &'a [KnownRule<'a>]) -> Result<KnownRules<'a>, OutOfMemory>
        ensures { IfOk result (λ known. known ≡ rules.now) }
    {
        let stretches = stretches_of(alloc, rules)?;
        Ok(KnownRules { rules, stretches })
    }

    /// All rules of this number in this edition, and maybe others between them.
    pub(crate) fn around(&self, edition: u64, number: u16) -> &[KnownRule<'a>]
        ensures { flat_map (rule_part edition number) result.now
            ≡ flat_map (rule_part edition number) self.now }
    {
        match stretch_at(&self.stretches, (edition, number)) {
            Some(stretch) => &self.rules[stretch.first..stretch.end],
            None => &[],
        }
    }
}

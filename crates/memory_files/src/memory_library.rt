ghost use Rattle.std.specs.Prelude.{◌≡◌, ◌++◌, ◌∷◌, [], ℕ, Option, None, Some, IfOk, IfErr, OnOk, OnErr, IfNone, IfSome, MatchOption, nat_eq};
ghost use Rattle.std.specs.Option.{option_map};
ghost use Rattle.std.specs.Cmp.Lexicographic.{pointwise};
ghost use Rattle.fw_base.specs.Faults.{HasCause, one_more};
ghost use Rattle.fw_base.specs.Pairs.{TakesOut};
ghost use Rattle.memory_files.specs.Memory.{MemoryShelf, NamedSource, pairs_of, take_source, is_refused_name, IsFirstAt, OpensFirst, IsMissing, RefusesName};

use crate::MemorySource;
use fw_base::{Failed, Library, Name, OutOfMemory, Source};
use std::alloc::Global;
use std::marker::Model;

/// A library over memory, for tests: sources under names, some of which may be refused.
#[derive(Drop)]
pub struct MemoryLibrary {
    sources: Vec<(Name, MemorySource)>,
    refusing: Vec<Name>,
    failures: u64,
    last_refused: Option<Name>,
}

impl Model for MemoryLibrary {
    ghost use Rattle.std.specs.Prelude.{◌≡◌, All};
    ghost use Rattle.memory_files.specs.Memory.{MemoryShelf, NamedSource, IsFresh};

    ghost Value = { MemoryShelf };

    ghost view = { λ l. record {
      sources = l.sources.items;
      refusing = l.refusing.items;
      failures = l.failures;
      last_refused = l.last_refused;
    } };

    ghost invariant = { λ l. All IsFresh l.sources.items };
}

impl MemoryLibrary {
    /// A library with no sources, which refuses no name.
    pub fn new(alloc: Global) -> MemoryLibrary
        ensures { result ≡ record {
          sources = [];
          refusing = [];
          failures = 0;
          last_refused = None;
        } }
    {
        MemoryLibrary {
            sources: Vec::new(alloc),
            refusing: Vec::new(alloc),
            failures: 0,
            last_refused: None,
        }
    }

    /// Adds a source, no read of which has failed, behind those that are there under the name.
    pub fn add(&mut self, name: Name, source: MemorySource) -> Result<(), OutOfMemory>
        requires { source.failures ≡ 0 }
        ensures ok { OnOk result (self.new
            ≡ record self.old { sources = self.old.sources ++ (name, source) ∷ [] }) }
        ensures err { OnErr result (self.new ≡ self.old) }
    {
        self.sources.push((name, source))?;
        Ok(())
    }

    /// Takes out the first source of the name, unless the name is refused.
    fn take(&mut self, name: &Name) -> Option<MemorySource>
        ensures given { IfSome result (OpensFirst self.old self.new name.now) }
        ensures fresh { IfSome result (λ source. source.failures ≡ 0) }
        ensures none { IfNone result (IsMissing self.old name.now × (self.new ≡ self.old)) }
    {
        if is_refusing(&self.refusing, name) {
            return None;
        }
        let place = place_of(&self.sources, name)?;
        let (_, source) = self.sources.remove(place);
        Some(source)
    }

    /// Counts a failed opening of this name.
    fn fail(&mut self, name: Name) -> Result<MemorySource, Failed>
        ensures failed { result ≡ Err (record {}) }
        ensures counted { self.new ≡ record self.old {
          failures = one_more self.old.failures;
          last_refused = Some name;
        } }
        ensures cause { HasCause self.old.failures self.new.failures result }
    {
        self.failures = self.failures.saturating_add(1);
        self.last_refused = Some(name);
        Err(Failed)
    }

    /// Has each opening of this name fail.
    pub fn refuse(&mut self, name: Name) -> Result<(), OutOfMemory>
        ensures ok { OnOk result (self.new
            ≡ record self.old { refusing = self.old.refusing ++ name ∷ [] }) }
        ensures err { OnErr result (self.new ≡ self.old) }
    {
        self.refusing.push(name)?;
        Ok(())
    }
}

/// Whether the name is among those that are refused.
fn is_refusing(refusing: &[Name], name: &Name) -> bool
    ensures { result ≡ is_refused_name name.now refusing.now }
{
    refusing.iter().any(|other| other == name)
}

/// The place of the first source of that name.
fn place_of(sources: &[(Name, MemorySource)], name: &Name) -> Option<usize>
    ensures { MatchOption result (take_source name.now sources.now ≡ None) (λ place.
        IsFirstAt name.now sources.now place) }
{
    for (place, (other, _)) in sources.iter().enumerate() {
        if other == name {
            return Some(place);
        }
    }
    None
}

impl Library for MemoryLibrary {
    type Reader = MemorySource;

    ghost pairs = { λ l. Some (pairs_of l.sources) };

    ghost faults = { λ l. l.failures };

    ghost refused = { λ l. l.last_refused };

    #[tactic(auto, using(crate::proofs::FirstElements::takes_out))]
    fn open(&mut self, name: Name) -> Result<MemorySource, Failed>
        ensures opened { IfOk result (λ reader.
            TakesOut (Some (pairs_of self.old.sources)) (Some (pairs_of self.new.sources)) name
            (Some reader.left)) }
        ensures fresh { IfOk result (λ reader. reader.failures ≡ 0) }
        ensures not_refused { OnOk result (self.new.last_refused ≡ self.old.last_refused) }
        ensures stays { OnErr result (Some (pairs_of self.new.sources)
            ≡ Some (pairs_of self.old.sources)) }
        ensures refused { OnErr result (self.new.last_refused ≡ Some name) }
        ensures cause { HasCause self.old.failures self.new.failures result }
        ensures steady { OnOk result (self.new.failures ≡ self.old.failures) }

        // Which it is, the first source of the name, and what is left.
        ensures given { IfOk result (λ reader. OpensFirst self.old self.new name reader) }
        ensures failed { OnErr result (RefusesName self.old self.new name) }
    {
        match self.take(&name) {
            Some(source) => Ok(source),
            None => self.fail(name),
        }
    }
}

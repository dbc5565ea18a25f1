ghost use Rattle.std.specs.Prelude.{◌≡◌, ◌∷◌, ◌++◌, ◌<◌, [], All, IfOk, IfSome, None, OnErr, OnOk, length, slice_index_or};
ghost use Rattle.eval_engine.specs.declared.docket_entry.DocketEntry.TheVariants.{Other};
ghost use Rattle.report_values.specs.Records as spec;

use eval_engine::DocketEntry;
use fw_base::OutOfMemory;
use std::alloc::Global;
use std::collections::HashMap;
use std::marker::Model;

/// What is told of a capture's records, in their order. Contracts see the list; equal entries are kept once.
#[derive(Drop)]
pub struct Records {
    /// The entries that differ, in the order in which they were met first.
    kinds: Vec<DocketEntry>,
    /// For each record the place of its entry among the kinds.
    places: Vec<u32>,
    /// Where an entry stands among the kinds: a hint, which is looked at before it is taken.
    hints: HashMap<DocketEntry, u32>,
}

impl Model for Records {
    ghost use Rattle.std.specs.Prelude.{List, All, ◌<◌, length};
    ghost use Rattle.eval_engine.specs.declared.docket_entry.DocketEntry.{DocketEntry};
    ghost use Rattle.report_values.specs.Records.{AreHinted, entries_at};

    ghost Value = { List DocketEntry };

    ghost view = { λ r. entries_at r.kinds.items r.places.items };

    ghost invariant = { λ r. All (λ place. place < length r.kinds.items) r.places.items
        × AreHinted r.kinds.items r.hints };
}

/// The place that is hinted at, where this entry stands there.
fn hinted(
    kinds: &[DocketEntry],
    hints: &HashMap<DocketEntry, u32>,
    entry: &DocketEntry,
) -> Option<u32>
    ensures there { IfSome result (λ place. spec.StandsAt kinds.now place entry.now) }
    ensures new { result ≡ None → spec.AreHinted kinds.now hints.now
        → spec.IsNew kinds.now entry.now }
{
    let place = *hints.get(entry)?;
    let kind = kinds.get(place as usize)?;
    if *kind == *entry { Some(place) } else { None }
}

/// Adds a kind behind the others, and answers its place.
fn add_kind(
    kinds: &mut Vec<DocketEntry>,
    hints: &mut HashMap<DocketEntry, u32>,
    entry: DocketEntry,
) -> Result<u32, OutOfMemory>
    ensures behind { IfOk result (λ place. (kinds.new.items ≡ kinds.old.items ++ entry ∷ [])
        × (place ≡ length kinds.old.items)) }
    ensures kept { OnErr result (kinds.new.items ≡ kinds.old.items) }
    ensures hints { spec.AreHinted kinds.old.items hints.old → spec.IsNew kinds.old.items entry
        → spec.AreHinted kinds.new.items hints.new }
{
    let Ok(place) = u32::try_from(kinds.len()) else {
        return Err(OutOfMemory);
    };
    hints.insert(entry, place)?;
    kinds.push(entry)?;
    Ok(place)
}

impl Records {
    /// No record.
    pub fn new(alloc: Global) -> Records
        ensures { result ≡ [] }
    {
        Records {
            kinds: Vec::new(alloc),
            places: Vec::new(alloc),
            hints: HashMap::new(alloc),
        }
    }

    /// How many records there are.
    pub fn len(&self) -> usize
        ensures { result ≡ length self.now }
    {
        self.places.len()
    }

    /// What is told of the record at this place, from 0.
    pub fn entry(&self, place: usize) -> &DocketEntry
        requires { place < length self.now }
        ensures { result.now ≡ slice_index_or self.now place Other }
    {
        &self.kinds[self.places[place] as usize]
    }

    /// Adds what is told of the next record.
    pub fn push(&mut self, entry: DocketEntry) -> Result<(), OutOfMemory>
        ensures { OnOk result (self.new ≡ self.old ++ entry ∷ []) }
    {
        if let Some(place) = hinted(&self.kinds, &self.hints, &entry) {
            self.places.push(place)?;
            return Ok(());
        }
        let place = add_kind(&mut self.kinds, &mut self.hints, entry)?;
        self.places.push(place)?;
        Ok(())
    }

    /// The entries that differ, and for each record the place of its entry among them.
    pub fn parts(&self) -> (&[DocketEntry], &[u32])
        ensures entries { spec.entries_at result.0.now result.1.now ≡ self.now }
        ensures within { All (λ place. place < length result.0.now) result.1.now }
        ensures count { length result.1.now ≡ length self.now }
        ensures distinct { spec.AreDistinct result.0.now }
    {
        (&self.kinds, &self.places)
    }
}

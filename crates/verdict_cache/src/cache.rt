ghost use Rattle.std.specs.Prelude.{◌≡◌, ◌≤◌, OnOk, OnErr, IfOk, IfNone};
ghost use Rattle.std.specs.Map.{lookup};
ghost use Rattle.lru.specs.LruCache.{promoted};
ghost use Rattle.verdict_cache.specs.Key.{same_key};
ghost use Rattle.verdict_cache.specs.Cache.{is_given, empty_cache, at_number, kept_value_of, with_key_first, with_pair, WasMissed};

use crate::Key;
use fw_base::{MOST_VERDICTS, OutOfMemory};
use lru::LruCache;
use std::alloc::Global;
use std::marker::Model;
use std::num::NonZeroUsize;

/// The most recent verdicts of one edition. A clause sees the capacity, the edition's number that was
/// given last, and the list of keys with their values, most recent first.
#[derive(Drop)]
pub struct VerdictCache<V> {
    recent: LruCache<Key, V>,
    number: Option<u64>,
}

impl<V> Model for VerdictCache<V> {
    ghost use Rattle.std.specs.Prelude.{◌<◌};
    ghost use Rattle.verdict_cache.specs.Cache.{Kept};

    ghost Value = { Kept V };

    ghost view = { λ c. record {
      capacity = c.recent.cap;
      number = c.number;
      pairs = c.recent.entries;
    } };

    ghost invariant = { λ c. 0 < c.recent.cap };
}

/// Whether the number is the last one given.
fn is_given(last: Option<u64>, number: u64) -> bool
    ensures { result ≡ is_given last number }
{
    match last {
        Some(last) => last == number,
        None => false,
    }
}

/// The value of the key, which becomes the most recent.
fn recall<V: Copy>(kept: &mut LruCache<Key, V>, key: &Key) -> Option<V>
    ensures value { result ≡ lookup (same_key key.now) kept.old.entries }
    ensures entries { kept.new.entries ≡ promoted (same_key key.now) kept.old.entries }
    ensures capacity { kept.new.cap ≡ kept.old.cap }
{
    kept.get(key).copied()
}

impl<V: Copy> VerdictCache<V> {
    /// An empty cache for at most `capacity` verdicts.
    pub fn open(alloc: Global, capacity: u32) -> Result<VerdictCache<V>, OutOfMemory>
        requires { (1 ≤ capacity) × (capacity ≤ MOST_VERDICTS) }
        ensures { IfOk result (λ cache. cache ≡ empty_cache capacity) }
    {
        let capacity = NonZeroUsize::new(capacity as usize).unwrap();
        Ok(VerdictCache {
            recent: LruCache::new(alloc, capacity)?,
            number: None,
        })
    }

    /// Empties the cache where the number isn't the last one given.
    fn turn_to(&mut self, number: u64)
        ensures { self.new ≡ at_number number self.old }
    {
        if !is_given(self.number, number) {
            self.recent.clear();
            self.number = Some(number);
        }
    }

    /// The value that is kept for the key, which becomes the most recent; none exactly where the key
    /// isn't kept. It first empties the cache where `number` isn't the last one given. It takes no memory.
    pub fn look(&mut self, number: u64, key: Key) -> Option<V>
        ensures value { result ≡ kept_value_of key (at_number number self.old) }
        ensures pairs { self.new ≡ with_key_first key (at_number number self.old) }
        ensures missed { IfNone result (WasMissed number key self.new) }
    {
        self.turn_to(number);
        recall(&mut self.recent, &key)
    }

    /// Keeps a value for a key that the last look, with the same number, didn't find. It becomes the most
    /// recent, and where the cache is full the least recent one goes. Where memory is wanted nothing has
    /// changed.
    pub fn keep(&mut self, number: u64, key: Key, value: V) -> Result<(), OutOfMemory>
        requires { WasMissed number key self.old }
        ensures kept { OnOk result (self.new ≡ with_pair key value self.old) }
        ensures unchanged { OnErr result (self.new ≡ self.old) }
    {
        self.recent.put(key, value)?;
        Ok(())
    }
}

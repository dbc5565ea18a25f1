ghost use Rattle.std.specs.Prelude.{◌≡◌, ◌↔◌, false, IsSome, IsErrOf, IsTrue, OnErr, OnOk};
ghost use Rattle.lookup_tables.specs.Entries.{IsInOrder, IsPlaceOf, value_of, with_entry, without_key};

use crate::InsertFault;

/// Where the entry of the key stands among entries in the order of their keys, or the place that it
/// would have.
pub fn place_of<K: Ord, V>(entries: &[(K, V)], key: &K) -> Result<usize, usize>
    requires { IsInOrder K.cmp entries.now }
    ensures { IsPlaceOf K.cmp entries.now key.now result }
{
    entries.binary_search_by(|(other, _)| other.cmp(key))
}

/// Whether an entry has the key.
pub fn has_key<K: Ord>(entries: &[(K, u32)], key: &K) -> bool
    requires { IsInOrder K.cmp entries.now }
    ensures { IsTrue result ↔ IsSome (value_of K.cmp entries.now key.now) }
{
    match place_of(entries, key) {
        Ok(_) => true,
        Err(_) => false,
    }
}

/// Adds an entry of that key and value in its place. `Exists` comes exactly where an entry has the
/// key, and either fault leaves the entries as they were.
pub fn insert_entry<K: Ord + Drop>(
    entries: &mut Vec<(K, u32)>,
    key: K,
    value: u32,
) -> Result<(), InsertFault>
    requires { IsInOrder K.cmp entries.old.items }
    ensures ok { OnOk result (entries.new.items ≡ with_entry K.cmp entries.old.items key value) }
    ensures ordered { IsInOrder K.cmp entries.new.items }
    ensures exists { IsErrOf result InsertFault.Exists
        ↔ IsSome (value_of K.cmp entries.old.items key) }
    ensures err { OnErr result (entries.new.items ≡ entries.old.items) }
{
    match place_of(entries, &key) {
        Ok(_) => Err(InsertFault::Exists),
        Err(place) => {
            entries.insert(place, (key, value))?;
            Ok(())
        }
    }
}

/// Takes out the entry of that key; false exactly where there is none.
pub fn remove_entry<K: Ord + Drop>(entries: &mut Vec<(K, u32)>, key: &K) -> bool
    requires { IsInOrder K.cmp entries.old.items }
    ensures there { IsTrue result ↔ IsSome (value_of K.cmp entries.old.items key.now) }
    ensures after { entries.new.items ≡ without_key K.cmp entries.old.items key.now }
    ensures same { result ≡ false → entries.new.items ≡ entries.old.items }
    ensures ordered { IsInOrder K.cmp entries.new.items }
{
    match place_of(entries, key) {
        Ok(place) => {
            entries.remove(place);
            true
        }
        Err(_) => false,
    }
}

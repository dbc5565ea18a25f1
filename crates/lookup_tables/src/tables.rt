ghost use Rattle.std.specs.Prelude.{◌≡◌, [], IfOk, OnOk, OnErr};
ghost use Rattle.std.specs.Option.{option_copied};
ghost use Rattle.lookup_tables.specs.Entries.{IsInOrder, value_of, with_entry, without_key};
ghost use Rattle.lookup_tables.specs.Tables.{name_cmp};

use crate::entries::place_of;
use crate::{SharedTable, Table};
use fw_base::{Name, OutOfMemory};
use std::alloc::Global;
use std::marker::Model;
use std::mem::replace;

/// Tables under their names. Contracts see them as pairs of a name and its table, in the order of the
/// names' bytes. Each table stands behind a shared value, so that a second `Tables` copies no entry.
#[derive(Clone, Drop)]
pub struct Tables {
    tables: Vec<(Name, SharedTable)>,
}

impl Model for Tables {
    ghost use Rattle.lookup_tables.specs.Entries.{IsInOrder};
    ghost use Rattle.lookup_tables.specs.Tables.{NamedTables, name_cmp};

    ghost Value = { NamedTables };

    ghost view = { λ t. t.tables.items };

    ghost invariant = { λ t. IsInOrder name_cmp t.tables.items };
}

impl Tables {
    /// No table. It takes no memory.
    pub fn new(alloc: Global) -> Tables
        ensures { result ≡ [] }
    {
        Tables {
            tables: Vec::new(alloc),
        }
    }

    /// The table of that name; `None` exactly where there is none.
    pub fn get(&self, name: &Name) -> Option<&Table>
        ensures { option_copied result ≡ value_of name_cmp self.now name.now }
    {
        match self.shared(name) {
            Some(table) => Some(table.table()),
            None => None,
        }
    }

    /// The table of that name as it may be shared; `None` exactly where there is none.
    pub fn shared(&self, name: &Name) -> Option<&SharedTable>
        ensures { option_copied result ≡ value_of name_cmp self.now name.now }
    {
        match place_of(&self.tables, name) {
            Ok(place) => Some(&self.tables[place].1),
            Err(_) => None,
        }
    }

    /// Puts the table under the name, and answers the one that was there, if any. Where memory runs out,
    /// the tables are as they were.
    pub fn insert(
        &mut self,
        name: Name,
        table: SharedTable,
    ) -> Result<Option<SharedTable>, OutOfMemory>
        ensures before { IfOk result (λ before. before ≡ value_of name_cmp self.old name) }
        ensures ok { OnOk result (self.new ≡ with_entry name_cmp self.old name table) }
        ensures err { OnErr result (self.new ≡ self.old) }
    {
        match place_of(&self.tables, &name) {
            Ok(place) => Ok(Some(replace(&mut self.tables[place].1, table))),
            Err(place) => {
                self.tables.insert(place, (name, table))?;
                Ok(None)
            }
        }
    }

    /// Takes out the table of that name; `None` exactly where there is none. It takes no memory.
    pub fn remove(&mut self, name: &Name) -> Option<SharedTable>
        ensures value { result ≡ value_of name_cmp self.old name.now }
        ensures after { self.new ≡ without_key name_cmp self.old name.now }
    {
        match place_of(&self.tables, name) {
            Ok(place) => {
                let (_, table) = self.tables.remove(place);
                Some(table)
            }
            Err(_) => None,
        }
    }

    /// The names with their tables, in the order of the names' bytes.
    pub fn entries(&self) -> &[(Name, SharedTable)]
        ensures value { result.now ≡ self.now }
        ensures ordered { IsInOrder name_cmp self.now }
    {
        &self.tables
    }
}

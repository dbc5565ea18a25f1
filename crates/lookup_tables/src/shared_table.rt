ghost use Rattle.std.specs.Prelude.{◌≡◌, IfOk};

use crate::Table;
use fw_base::OutOfMemory;
use std::alloc::Global;
use std::marker::Model;
use std::sync::Arc;

/// A table that several `Tables` may have at once, in any threads, and that none of them changes.
/// Contracts see it as the table itself.
#[derive(Clone, Drop)]
pub struct SharedTable {
    table: Arc<Table>,
}

impl Model for SharedTable {
    ghost use Rattle.std.specs.Arc.{arc_value};
    ghost use Rattle.lookup_tables.specs.declared.table.Table.{Table};

    ghost Value = { Table };

    ghost view = { λ t. arc_value t.table };
}

impl SharedTable {
    /// The table, which may be shared from now on. It fails where memory runs out.
    pub fn new(alloc: Global, table: Table) -> Result<SharedTable, OutOfMemory>
        ensures { IfOk result (λ shared. shared ≡ table) }
    {
        Ok(SharedTable {
            table: Arc::new(alloc, table)?,
        })
    }

    /// The table itself.
    pub fn table(&self) -> &Table
        ensures { result.now ≡ self.now }
    {
        &self.table
    }

    /// The table to change: itself where no one else has it, and else a copy. It fails where memory
    /// runs out.
    pub fn own(self) -> Result<Table, OutOfMemory>
        ensures { IfOk result (λ table. table ≡ self) }
    {
        Ok(Arc::unwrap_or_clone(self.table)?)
    }
}

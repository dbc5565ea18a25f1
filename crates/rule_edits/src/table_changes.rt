ghost use Rattle.std.specs.Prelude.{◌≡◌, IfOk, OnOk, map};
ghost use Rattle.std.specs.Arc.{arc_value};
ghost use Rattle.std.specs.List.{list_any};
ghost use Rattle.fw_rule.specs.declared.table_command.Key.TheVariants.{Net, Number};
ghost use Rattle.fw_rule.specs.declared.table_command.TableType.TheVariants.{Addresses};
ghost use Rattle.lookup_tables.specs.declared.table.Table.TheVariants.{Addresses as AddressTable, Numbers as NumberedTable};
ghost use Rattle.lookup_tables.specs.Tables.{table_named};
ghost use Rattle.rule_edits.specs.Answers.{Gives};
ghost use Rattle.rule_edits.specs.Lookups as spec;
ghost use Rattle.rule_edits.specs.Uses.{names_table};

use crate::ApplyFault;
use crate::uses::{empty_table, names_table};
use fw_base::{Name, OutOfMemory, Prefix};
use fw_rule::{Key, Rule, TableCommand, TableType};
use lookup_tables::{AddrTable, InsertFault, NumberTable, SharedTable, Table, Tables};
use std::alloc::Global;
use std::sync::Arc;

fn add_prefix(mut entries: AddrTable, prefix: Prefix, value: u32) -> Result<Table, ApplyFault>
    ensures { Gives result (spec.add_key (AddressTable entries) (Net prefix) value) }
{
    match entries.insert(prefix, value) {
        Ok(()) => Ok(Table::Addresses(entries)),
        Err(InsertFault::Exists) => Err(ApplyFault::EntryExists),
        Err(InsertFault::OutOfMemory) => Err(ApplyFault::OutOfMemory),
    }
}

fn add_number(mut entries: NumberTable, number: u32, value: u32) -> Result<Table, ApplyFault>
    ensures { Gives result (spec.add_key (NumberedTable entries) (Number number) value) }
{
    match entries.insert(number, value) {
        Ok(()) => Ok(Table::Numbers(entries)),
        Err(InsertFault::Exists) => Err(ApplyFault::EntryExists),
        Err(InsertFault::OutOfMemory) => Err(ApplyFault::OutOfMemory),
    }
}

/// The table with one more entry.
fn add_key(table: Table, key: Key, value: u32) -> Result<Table, ApplyFault>
    ensures { Gives result (spec.add_key table key value) }
{
    match (table, key) {
        (Table::Addresses(entries), Key::Net(prefix)) => add_prefix(entries, prefix, value),
        (Table::Numbers(entries), Key::Number(number)) => add_number(entries, number, value),
        (Table::Addresses(_), Key::Number(_)) | (Table::Numbers(_), Key::Net(_)) => {
            Err(ApplyFault::WrongType)
        }
    }
}

fn remove_prefix(mut entries: AddrTable, prefix: Prefix) -> Result<Table, ApplyFault>
    ensures { Gives result (spec.remove_key (AddressTable entries) (Net prefix)) }
{
    if entries.remove(prefix) {
        Ok(Table::Addresses(entries))
    } else {
        Err(ApplyFault::NoSuchEntry)
    }
}

fn remove_number(mut entries: NumberTable, number: u32) -> Result<Table, ApplyFault>
    ensures { Gives result (spec.remove_key (NumberedTable entries) (Number number)) }
{
    if entries.remove(number) {
        Ok(Table::Numbers(entries))
    } else {
        Err(ApplyFault::NoSuchEntry)
    }
}

/// The table without an entry.
fn remove_key(table: Table, key: Key) -> Result<Table, ApplyFault>
    ensures { Gives result (spec.remove_key table key) }
{
    match (table, key) {
        (Table::Addresses(entries), Key::Net(prefix)) => remove_prefix(entries, prefix),
        (Table::Numbers(entries), Key::Number(number)) => remove_number(entries, number),
        (Table::Addresses(_), Key::Number(_)) | (Table::Numbers(_), Key::Net(_)) => {
            Err(ApplyFault::WrongType)
        }
    }
}

#[tactic(auto, unfolding(crate::specs::Lookups::create_table))]
fn create_table(
    alloc: Global,
    mut tables: Tables,
    name: &Name,
    kind: TableType,
) -> Result<Tables, ApplyFault>
    ensures { Gives result (spec.create_table tables name.now kind) }
{
    if tables.get(name).is_some() {
        return Err(ApplyFault::EntryExists);
    }
    put(alloc, &mut tables, name, empty_table(alloc, kind))?;
    Ok(tables)
}

fn is_named(rules: &[Arc<Rule>], name: &Name) -> bool
    ensures { result ≡ list_any (names_table name.now) (map arc_value rules.now) }
{
    for rule in rules {
        if names_table(name, &rule.body) {
            return true;
        }
    }
    false
}

#[tactic(auto, unfolding(crate::specs::Lookups::destroy_table))]
fn destroy_table(mut tables: Tables, rules: &[Arc<Rule>], name: &Name) -> Result<Tables, ApplyFault>
    ensures { Gives result (spec.destroy_table tables (map arc_value rules.now) name.now) }
{
    if tables.remove(name).is_none() {
        return Err(ApplyFault::NoSuchTable);
    }
    if is_named(rules, name) {
        return Err(ApplyFault::TableInUse);
    }
    Ok(tables)
}

/// The table to change, or a new one of addresses.
fn found_or_new(alloc: Global, table: Option<SharedTable>) -> Result<Table, OutOfMemory>
    ensures { IfOk result (λ found. found ≡ spec.found_or_new table) }
{
    match table {
        Some(table) => table.own(),
        None => Ok(Table::Addresses(AddrTable::new(alloc))),
    }
}

/// The table to change.
fn found(table: Option<SharedTable>) -> Result<Table, ApplyFault>
    ensures { Gives result (spec.existing_table table) }
{
    match table {
        Some(table) => Ok(table.own()?),
        None => Err(ApplyFault::NoSuchTable),
    }
}

/// Puts the table under the name.
fn put(alloc: Global, tables: &mut Tables, name: &Name, table: Table) -> Result<(), OutOfMemory>
    ensures { OnOk result (tables.new ≡ spec.put_table tables.old name.now table) }
{
    tables.insert(name.clone()?, SharedTable::new(alloc, table)?)?;
    Ok(())
}

/// Takes the table to change out of its place, where an empty one stands until it is put back: so no
/// entry of a table that no other configuration has is copied.
fn take(alloc: Global, tables: &mut Tables, name: &Name) -> Result<Option<SharedTable>, OutOfMemory>
    ensures table { IfOk result (λ table. table ≡ table_named tables.old name.now) }
    ensures after { OnOk result (tables.new
        ≡ spec.put_table tables.old name.now (spec.empty_table Addresses)) }
{
    let empty = SharedTable::new(alloc, empty_table(alloc, TableType::Addresses))?;
    tables.insert(name.clone()?, empty)
}

#[tactic(auto, using(crate::proofs::Keys::put_twice), unfolding(crate::specs::Lookups::add_entry))]
fn add_entry(
    alloc: Global,
    mut tables: Tables,
    name: &Name,
    key: Key,
    value: u32,
) -> Result<Tables, ApplyFault>
    ensures { Gives result (spec.add_entry tables name.now key value) }
{
    let taken = take(alloc, &mut tables, name)?;
    let table = found_or_new(alloc, taken)?;
    put(alloc, &mut tables, name, add_key(table, key, value)?)?;
    Ok(tables)
}

#[tactic(auto, using(crate::proofs::Keys::put_twice), unfolding(crate::specs::Lookups::remove_entry_of))]
fn remove_entry(
    alloc: Global,
    mut tables: Tables,
    name: &Name,
    key: Key,
) -> Result<Tables, ApplyFault>
    ensures { Gives result (spec.remove_entry_of tables name.now key) }
{
    let table = found(take(alloc, &mut tables, name)?)?;
    put(alloc, &mut tables, name, remove_key(table, key)?)?;
    Ok(tables)
}

fn cleared(alloc: Global, table: &Table) -> Table
    ensures { result ≡ spec.table_without_entries table.now }
{
    match table {
        Table::Addresses(_) => Table::Addresses(AddrTable::new(alloc)),
        Table::Numbers(_) => Table::Numbers(NumberTable::new(alloc)),
    }
}

#[tactic(auto, unfolding(crate::specs::Lookups::clear_table))]
fn clear_table(alloc: Global, mut tables: Tables, name: &Name) -> Result<Tables, ApplyFault>
    ensures { Gives result (spec.clear_table tables name.now) }
{
    match tables.get(name) {
        Some(table) => {
            let empty = cleared(alloc, table);
            put(alloc, &mut tables, name, empty)?;
            Ok(tables)
        }
        None => Err(ApplyFault::NoSuchTable),
    }
}

fn are_alike(table: &Table, other: &Table) -> bool
    ensures { result ≡ spec.are_alike table.now other.now }
{
    match (table, other) {
        (Table::Addresses(_), Table::Addresses(_)) | (Table::Numbers(_), Table::Numbers(_)) => true,
        (Table::Addresses(_), Table::Numbers(_)) | (Table::Numbers(_), Table::Addresses(_)) => {
            false
        }
    }
}

/// The table of the name for one more place: no entry is copied.
fn share_of(tables: &Tables, name: &Name) -> Result<SharedTable, ApplyFault>
    ensures { Gives result (spec.existing_table (table_named tables.now name.now)) }
{
    match tables.shared(name) {
        Some(table) => Ok(table.clone()?),
        None => Err(ApplyFault::NoSuchTable),
    }
}

#[tactic(auto, unfolding(crate::specs::Lookups::swap_tables))]
fn swap_tables(mut tables: Tables, name: &Name, other: &Name) -> Result<Tables, ApplyFault>
    ensures { Gives result (spec.swap_tables tables name.now other.now) }
{
    let first = share_of(&tables, name)?;
    let second = share_of(&tables, other)?;
    if !are_alike(first.table(), second.table()) {
        return Err(ApplyFault::WrongType);
    }
    tables.insert(name.clone()?, second)?;
    tables.insert(other.clone()?, first)?;
    Ok(tables)
}

/// The tables after a command on the one of that name. `list` changes nothing.
pub(crate) fn change_tables(
    alloc: Global,
    tables: Tables,
    rules: &[Arc<Rule>],
    name: &Name,
    command: &TableCommand,
) -> Result<Tables, ApplyFault>
    ensures { Gives result
        (spec.change_tables tables (map arc_value rules.now) name.now command.now) }
{
    match command {
        TableCommand::Create(kind) => create_table(alloc, tables, name, *kind),
        TableCommand::Destroy => destroy_table(tables, rules, name),
        TableCommand::Add(key, value) => add_entry(alloc, tables, name, *key, *value),
        TableCommand::Remove(key) => remove_entry(alloc, tables, name, *key),
        TableCommand::Clear => clear_table(alloc, tables, name),
        TableCommand::SwapWith(other) => swap_tables(tables, name, other),
        TableCommand::ListEntries => Ok(tables),
    }
}

ghost use Rattle.std.specs.Prelude.{◌≡◌, Ok, IfOk, OnOk, IfErr};
ghost use Rattle.std.specs.Arc.{arc_value};
ghost use Rattle.std.specs.List.{filter_map};
ghost use Rattle.std.specs.Option.{option_map};
ghost use Rattle.rule_edits.specs.Answers.{IsRefusal};
ghost use Rattle.rule_edits.specs.Lookups as lookups;
ghost use Rattle.rule_edits.specs.Uses as uses;

use crate::ApplyFault;
use crate::owned::own_tables;
use fw_base::Name;
use fw_rule::{AddrItem, Body, Field, Opt, TableType, Test};
use lookup_tables::{AddrTable, NumberTable, SharedTable, Table, Tables};
use std::alloc::Global;
use std::sync::Arc;

/// The table that the element names, and the type that it has to have.
fn item_use(item: &AddrItem) -> Option<(&Name, TableType)>
    ensures { option_map (λ u. record { name = u.0.now; kind = u.1 }) result
        ≡ uses.item_use item.now }
{
    match item {
        AddrItem::InTable(name) | AddrItem::TableValue(name, _) => {
            Some((name, TableType::Addresses))
        }
        AddrItem::Any | AddrItem::Me | AddrItem::Net(_) | AddrItem::Net6(_) => None,
    }
}

fn field_kind(field: Field) -> TableType
    ensures { result ≡ uses.field_kind field }
{
    match field {
        Field::SrcIp | Field::DstIp => TableType::Addresses,
        Field::SrcPort | Field::DstPort => TableType::Numbers,
    }
}

/// The table that the option names, and the type that it has to have.
fn option_use(option: &Opt) -> Option<(&Name, TableType)>
    ensures { option_map (λ u. record { name = u.0.now; kind = u.1 }) result
        ≡ uses.option_use option.now }
{
    match &option.test {
        Test::Lookup(field, name) => Some((name, field_kind(*field))),
        Test::Inward
        | Test::Outward
        | Test::Established
        | Test::Setup
        | Test::Frag
        | Test::Recv(_)
        | Test::Xmit(_)
        | Test::Via(_)
        | Test::TcpFlags { .. }
        | Test::IcmpTypes(_)
        | Test::Icmp6Types(_)
        | Test::IpOptions { .. } => None,
    }
}

/// A table without entries.
pub(crate) fn empty_table(alloc: Global, kind: TableType) -> Table
    ensures { result ≡ lookups.empty_table kind }
{
    match kind {
        TableType::Addresses => Table::Addresses(AddrTable::new(alloc)),
        TableType::Numbers => Table::Numbers(NumberTable::new(alloc)),
    }
}

/// Whether the table has this type.
fn is_of(kind: TableType, table: &Table) -> bool
    ensures { result ≡ lookups.is_of kind table.now }
{
    match (kind, table) {
        (TableType::Addresses, Table::Addresses(_)) | (TableType::Numbers, Table::Numbers(_)) => {
            true
        }
        (TableType::Addresses, Table::Numbers(_)) | (TableType::Numbers, Table::Addresses(_)) => {
            false
        }
    }
}

/// Makes the table where it isn't there; it has to be of this type.
fn make_table(
    alloc: Global,
    tables: &mut Tables,
    name: &Name,
    kind: TableType,
) -> Result<(), ApplyFault>
    ensures ok { OnOk result (lookups.with_use tables.old (record { name = name.now; kind = kind })
        ≡ Ok tables.new) }
    ensures err { IfErr result (λ fault.
        IsRefusal fault (lookups.with_use tables.old (record { name = name.now; kind = kind }))) }
{
    match tables.get(name) {
        None => {
            let empty = SharedTable::new(alloc, empty_table(alloc, kind))?;
            tables.insert(name.clone()?, empty)?;
            Ok(())
        }
        Some(table) => {
            if is_of(kind, table) {
                Ok(())
            } else {
                Err(ApplyFault::WrongType)
            }
        }
    }
}

/// Makes the tables that a list of addresses names.
fn make_for_items(alloc: Global, tables: &mut Tables, items: &[AddrItem]) -> Result<(), ApplyFault>
    ensures ok { OnOk result (lookups.with_uses tables.old (filter_map uses.item_use items.now)
        ≡ Ok tables.new) }
    ensures err { IfErr result (λ fault.
        IsRefusal fault (lookups.with_uses tables.old (filter_map uses.item_use items.now))) }
{
    for item in items {
        if let Some((name, kind)) = item_use(item) {
            make_table(alloc, tables, name, kind)?;
        }
    }
    Ok(())
}

/// Makes the tables that options name.
fn make_for_options(alloc: Global, tables: &mut Tables, options: &[Opt]) -> Result<(), ApplyFault>
    ensures ok { OnOk result (lookups.with_uses tables.old (filter_map uses.option_use options.now)
        ≡ Ok tables.new) }
    ensures err { IfErr result (λ fault.
        IsRefusal fault (lookups.with_uses tables.old (filter_map uses.option_use options.now))) }
{
    for option in options {
        if let Some((name, kind)) = option_use(option) {
            make_table(alloc, tables, name, kind)?;
        }
    }
    Ok(())
}

/// Makes the tables that a body names, in the order of its text.
#[tactic(auto, using(crate::proofs::UsesInTurn::uses_append))]
fn make_for_body(alloc: Global, tables: &mut Tables, body: &Body) -> Result<(), ApplyFault>
    ensures ok { OnOk result (lookups.with_uses tables.old (uses.body_uses body.now)
        ≡ Ok tables.new) }
    ensures err { IfErr result (λ fault.
        IsRefusal fault (lookups.with_uses tables.old (uses.body_uses body.now))) }
{
    make_for_items(alloc, tables, body.source.items.as_slice())?;
    make_for_items(alloc, tables, body.destination.items.as_slice())?;
    make_for_options(alloc, tables, body.options.as_slice())
}

/// The tables, with those that a body names.
fn with_body_tables(
    alloc: Global,
    tables: Arc<Tables>,
    body: &Body,
) -> Result<Arc<Tables>, ApplyFault>
    ensures ok { IfOk result (λ after.
        lookups.with_uses (arc_value tables) (uses.body_uses body.now) ≡ Ok (arc_value after)) }
    ensures err { IfErr result (λ fault.
        IsRefusal fault (lookups.with_uses (arc_value tables) (uses.body_uses body.now))) }
{
    let mut owned = own_tables(tables)?;
    make_for_body(alloc, &mut owned, body)?;
    Ok(Arc::new(alloc, owned)?)
}

/// The tables, with those that a rule names, made in the order of its text.
pub(crate) fn with_tables_of(
    alloc: Global,
    tables: Arc<Tables>,
    body: &Option<Body>,
) -> Result<Arc<Tables>, ApplyFault>
    ensures ok { IfOk result (λ after. lookups.with_uses (arc_value tables) (uses.uses_of body.now)
        ≡ Ok (arc_value after)) }
    ensures err { IfErr result (λ fault.
        IsRefusal fault (lookups.with_uses (arc_value tables) (uses.uses_of body.now))) }
{
    match body {
        Some(asked) => with_body_tables(alloc, tables, asked),
        None => Ok(tables),
    }
}

/// Whether the rule's body names the table.
pub(crate) fn names_table(name: &Name, body: &Option<Body>) -> bool
    ensures { result ≡ uses.use_names name.now (uses.uses_of body.now) }
{
    match body {
        None => false,
        Some(asked) => {
            items_name(name, asked.source.items.as_slice())
                || items_name(name, asked.destination.items.as_slice())
                || options_name(name, asked.options.as_slice())
        }
    }
}

fn items_name(name: &Name, items: &[AddrItem]) -> bool
    ensures { result ≡ uses.use_names name.now (filter_map uses.item_use items.now) }
{
    for item in items {
        if let Some((other, _)) = item_use(item)
            && other == name
        {
            return true;
        }
    }
    false
}

fn options_name(name: &Name, options: &[Opt]) -> bool
    ensures { result ≡ uses.use_names name.now (filter_map uses.option_use options.now) }
{
    for option in options {
        if let Some((other, _)) = option_use(option)
            && other == name
        {
            return true;
        }
    }
    false
}

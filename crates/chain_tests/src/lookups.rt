use fw_base::{Addr, Name, OutOfMemory, Prefix};
use lookup_tables::{AddrTable, InsertFault, NumberTable, SharedTable, Table, Tables};
use std::test::Fail;

fn address(bytes: [u8; 4]) -> Addr {
    Addr(u32::from_be_bytes(bytes))
}

fn prefix(bytes: [u8; 4], length: u8) -> Result<Prefix, Fail> {
    Ok(Prefix::new(address(bytes), length).ok_or("length")?)
}

#[test]
fn table_values_and_existing_entry(rt: HostRuntime) -> Result<(), Fail> {
    let eight = prefix([10, 0, 0, 0], 8)?;
    let sixteen = prefix([10, 1, 0, 0], 16)?;
    let mut nets = AddrTable::new(rt.alloc());
    assert_eq!(rt; nets.insert(sixteen, 2), Ok(()));
    assert_eq!(rt; nets.insert(eight, 1), Ok(()));
    let before = nets.clone()?;
    assert_eq!(rt; nets.insert(eight, 5), Err(InsertFault::Exists));
    assert_eq!(rt; nets.entries(), [(eight, 1), (sixteen, 2)].as_slice());
    assert_eq!(rt; before.entries(), nets.entries());
    Ok(())
}

#[test]
fn longest_prefix_decides(rt: HostRuntime) -> Result<(), Fail> {
    let mut nets = AddrTable::new(rt.alloc());
    nets.insert(prefix([10, 0, 0, 0], 8)?, 1)?;
    nets.insert(prefix([10, 1, 0, 0], 16)?, 2)?;
    assert_eq!(rt; nets.find(address([10, 1, 2, 3])), Some(2));
    assert_eq!(rt; nets.find(address([10, 2, 2, 3])), Some(1));
    assert_eq!(rt; nets.find(address([11, 0, 0, 1])), None);
    Ok(())
}

#[test]
fn pieces_of_nested_prefixes(rt: HostRuntime) -> Result<(), Fail> {
    let mut nets = AddrTable::new(rt.alloc());
    assert!(rt; nets.pieces().is_empty());
    nets.insert(prefix([10, 1, 0, 0], 16)?, 2)?;
    nets.insert(prefix([10, 0, 0, 0], 8)?, 1)?;
    let wanted = [
        ([0, 0, 0, 0], None),
        ([10, 0, 0, 0], Some(1)),
        ([10, 1, 0, 0], Some(2)),
        ([10, 2, 0, 0], Some(1)),
        ([11, 0, 0, 0], None),
    ];
    assert_eq!(rt; nets.pieces().len(), 5);
    for (piece, (first, value)) in nets.pieces().iter().zip(wanted) {
        assert_eq!(rt; (piece.first, piece.value), (address(first), value));
    }
    assert!(rt; nets.remove(prefix([10, 0, 0, 0], 8)?));
    assert_eq!(rt; nets.pieces().len(), 3);
    assert!(rt; nets.remove(prefix([10, 1, 0, 0], 16)?));
    assert!(rt; nets.pieces().is_empty());
    Ok(())
}

#[test]
fn prefixes_of_any_length(rt: HostRuntime) -> Result<(), Fail> {
    let mut nets = AddrTable::new(rt.alloc());
    nets.insert(prefix([10, 1, 2, 3], 32)?, 4)?;
    nets.insert(prefix([0, 0, 0, 0], 0)?, 9)?;
    nets.insert(prefix([10, 1, 2, 0], 31)?, 3)?;
    let cases = [
        ([10, 1, 2, 3], 4),
        ([10, 1, 2, 1], 3),
        ([10, 1, 2, 2], 9),
        ([255, 255, 255, 255], 9),
    ];
    for (bytes, value) in cases {
        assert_eq!(rt; nets.find(address(bytes)), Some(value), "at {bytes:?}");
    }
    assert!(rt; nets.remove(prefix([10, 1, 2, 3], 32)?));
    assert!(rt; !nets.remove(prefix([10, 1, 2, 3], 30)?));
    assert_eq!(rt; nets.find(address([10, 1, 2, 3])), Some(9));
    Ok(())
}

#[test]
fn lookup_of_a_port(rt: HostRuntime) -> Result<(), Fail> {
    let mut ports = NumberTable::new(rt.alloc());
    assert_eq!(rt; ports.insert(443, 2), Ok(()));
    assert_eq!(rt; ports.insert(80, 1), Ok(()));
    assert_eq!(rt; ports.insert(80, 7), Err(InsertFault::Exists));
    assert_eq!(rt; ports.clone()?.entries(), [(80, 1), (443, 2)].as_slice());
    assert_eq!(rt;
        (ports.find(80), ports.find(81), ports.find(443)),
        (Some(1), None, Some(2))
    );
    assert!(rt; ports.remove(80));
    assert!(rt; !ports.remove(80));
    assert_eq!(rt; ports.find(80), None);
    Ok(())
}

fn named(
    rt: &impl AllocGlobal,
    bytes: &[u8],
    table: Table,
    tables: &mut Tables,
) -> Result<bool, OutOfMemory> {
    let shared = SharedTable::new(rt.alloc(), table)?;
    let before = tables.insert(Name::new(rt.alloc(), bytes)?, shared)?;
    Ok(before.is_some())
}

#[test]
fn tables_stand_by_the_bytes_of_their_names(rt: HostRuntime) -> Result<(), Fail> {
    let mut tables = Tables::new(rt.alloc());
    named(
        &rt,
        b"nets",
        Table::Addresses(AddrTable::new(rt.alloc())),
        &mut tables,
    )?;
    named(
        &rt,
        b"Nets",
        Table::Addresses(AddrTable::new(rt.alloc())),
        &mut tables,
    )?;
    named(
        &rt,
        b"net",
        Table::Numbers(NumberTable::new(rt.alloc())),
        &mut tables,
    )?;
    named(
        &rt,
        b"nets",
        Table::Numbers(NumberTable::new(rt.alloc())),
        &mut tables,
    )?;
    let copy = tables.clone()?;
    let [(first, _), (second, _), (third, ports)] = copy.entries() else {
        return Err("three tables")?;
    };
    assert!(rt; matches!(ports.table(), Table::Numbers(_)));
    assert!(rt; matches!(ports.clone()?.own()?, Table::Numbers(_)));
    assert_eq!(rt;
        (first.bytes(), second.bytes(), third.bytes()),
        (b"Nets".as_slice(), b"net".as_slice(), b"nets".as_slice())
    );
    assert!(rt; copy.get(third).is_some());
    assert!(rt; tables.remove(third).is_some());
    assert!(rt; tables.get(third).is_none());
    Ok(())
}

mod changes;
mod visits;

use changes::{CHANGES, Change};
use fw_base::{Link, MOST_VERDICTS, OutOfMemory};
use packet_headers::{Packet, read_packet};
use std::alloc::{AllocError, Global};
use std::process::Abort;
use std::test::Fail;
use verdict_cache::{Key, VerdictCache};
use visits::{ROWS, Row};

/// The key of a packet without a link header.
fn key_of(rt: &impl Abort, packet: &[u8]) -> Key {
    assert!(rt; packet.len() < 65_536);
    match read_packet(Link::Raw, packet) {
        Packet::Ip(packet) => Key::of(&packet),
        other => panic!(rt; "no IPv4 packet: {other:?}"),
    }
}

fn changed(alloc: Global, change: &Change) -> Result<Vec<u8>, AllocError> {
    let mut packet = Vec::from_slice(alloc, change.packet)?;
    if let Some(byte) = packet.get_mut(change.place) {
        *byte = change.byte;
    }
    Ok(packet)
}

#[test]
fn keys_keep_what_rules_tell(rt: HostRuntime) -> Result<(), Fail> {
    for change in &CHANGES {
        let packet = changed(rt.alloc(), change)?;
        let is_equal = key_of(&rt, change.packet) == key_of(&rt, &packet);
        assert_eq!(rt; is_equal, change.is_equal, "{}", change.what);
    }
    Ok(())
}

/// What a packet thread does with a packet: the value that the cache had for it. Where it had none, the
/// one of the evaluation is kept.
fn visit(
    cache: &mut VerdictCache<u32>,
    number: u64,
    key: Key,
    evaluated: u32,
) -> Result<Option<u32>, OutOfMemory> {
    match cache.look(number, key) {
        Some(value) => Ok(Some(value)),
        None => {
            cache.keep(number, key, evaluated)?;
            Ok(None)
        }
    }
}

fn count_hits(rt: &impl Abort, alloc: Global, row: &Row) -> Result<u32, OutOfMemory> {
    assert!(rt; 1 <= row.capacity && row.capacity <= MOST_VERDICTS);
    let mut cache = VerdictCache::open(alloc, row.capacity)?;
    let mut hits: u32 = 0;
    for (edition, packet, rule) in row.visits {
        let key = key_of(rt, packet);
        if let Some(value) = visit(&mut cache, *edition, key, *rule)? {
            assert_eq!(rt; value, *rule, "{}", row.name);
            hits = hits.saturating_add(1);
        }
    }
    Ok(hits)
}

#[test]
fn recent_verdicts_are_found(rt: HostRuntime) -> Result<(), Fail> {
    for row in &ROWS {
        let hits = count_hits(&rt, rt.alloc(), row)?;
        assert_eq!(rt; hits, row.hits, "{}", row.name);
    }
    Ok(())
}

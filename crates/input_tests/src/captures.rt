//! Worked captures, in every cut.
use crate::frames::behind;
use fw_base::{Link, Source};
use memory_files::MemorySource;
use pcap_read::{Capture, CaptureFault, count_records};
use std::alloc::{AllocError, Global};
use std::process::Abort;
use std::test::Fail;
use test_frames::SYN;

/// The sizes in which sources give their bytes.
const PIECES: [&[usize]; 3] = [&[1], &[7, 16], &[]];

/// How many records a capture has at most, where a test says nothing else.
const MOST: u32 = 4_194_304;

/// The number of the record at which a capture stops, and its fault, or none at the end.
type Stopped = (u32, Option<CaptureFault>);

/// A little-endian header with microseconds and link type 1.
fn ethernet_header() -> &'static [u8] {
    b"\xd4\xc3\xb2\xa1\x02\x00\x04\x00\x00\x00\x00\x00\x00\x00\x00\x00\x00\x00\x04\x00\x01\x00\x00\x00"
}

/// The header of a record of 54 bytes at second 100.
fn frame_header() -> &'static [u8] {
    b"\x64\x00\x00\x00\x00\x00\x00\x00\x36\x00\x00\x00\x36\x00\x00\x00"
}

/// The SYN behind an Ethernet header.
fn frame(alloc: Global) -> Result<Vec<u8>, AllocError> {
    let header = b"\x02\x00\x00\x00\x00\x01\x02\x00\x00\x00\x00\x02\x08\x00";
    behind(alloc, header, SYN)
}

/// The SYN behind a Linux cooked header.
fn cooked(alloc: Global) -> Result<Vec<u8>, AllocError> {
    let header = b"\x00\x00\x00\x01\x00\x06\x02\x00\x00\x00\x00\x02\x00\x00\x08\x00";
    behind(alloc, header, SYN)
}

/// A big-endian capture with nanoseconds and link type 113, of one record of 56 bytes at second 100.
fn cooked_capture(alloc: Global) -> Result<Vec<u8>, AllocError> {
    let mut bytes = Vec::from_slice(
        alloc,
        b"\xa1\xb2\x3c\x4d\x00\x02\x00\x04\x00\x00\x00\x00\x00\x00\x00\x00\x00\x04\x00\x00\x00\x00\x00\x71".as_slice(),
    )?;
    bytes.extend_from_slice(
        b"\x00\x00\x00\x64\x00\x00\x00\x00\x00\x00\x00\x38\x00\x00\x00\x38".as_slice(),
    )?;
    bytes.extend_from_slice(&cooked(alloc)?)?;
    Ok(bytes)
}

/// An Ethernet capture of the frame, twice.
fn two_records(alloc: Global) -> Result<Vec<u8>, AllocError> {
    let mut bytes = Vec::from_slice(alloc, ethernet_header())?;
    for _ in 0..2 {
        bytes.extend_from_slice(frame_header())?;
        bytes.extend_from_slice(&frame(alloc)?)?;
    }
    Ok(bytes)
}

/// An Ethernet capture of a record of 262,144 bytes, and the header of one that is longer.
fn too_long(alloc: Global) -> Result<Vec<u8>, AllocError> {
    let mut bytes = Vec::from_slice(alloc, ethernet_header())?;
    bytes.extend_from_slice(b"\x64\0\0\0\0\0\0\0\0\0\x04\0\0\0\x04\0".as_slice())?;
    bytes.extend_from_slice(&vec![in alloc; 0; 262_144]?)?;
    bytes.extend_from_slice(b"\x65\0\0\0\0\0\0\0\x01\0\x04\0\x01\0\x04\0".as_slice())?;
    Ok(bytes)
}

fn source_of(
    alloc: Global,
    bytes: &[u8],
    pieces: &[usize],
    cut: Option<u64>,
) -> Result<MemorySource, AllocError> {
    let bytes = Vec::from_slice(alloc, bytes)?;
    let pieces = Vec::from_slice(alloc, pieces)?;
    Ok(MemorySource::new(bytes, pieces, cut))
}

fn stop_of(
    alloc: Global,
    bytes: &[u8],
    pieces: &[usize],
    cut: Option<u64>,
) -> Result<Stopped, AllocError> {
    match count_records(alloc, source_of(alloc, bytes, pieces, cut)?, MOST) {
        Ok(counted) => Ok((counted.records.saturating_add(1), counted.fault)),
        Err(refused) => Ok((0, Some(refused.fault))),
    }
}

/// What the two records, cut behind so many bytes, stop with.
fn stop_at_end(len: usize) -> Stopped {
    match len {
        0..24 => (0, Some(CaptureFault::ShortHeader)),
        24 => (1, None),
        25..40 => (1, Some(CaptureFault::ShortRecordHeader)),
        40..94 => (1, Some(CaptureFault::ShortRecord)),
        94 => (2, None),
        95..110 => (2, Some(CaptureFault::ShortRecordHeader)),
        110..164 => (2, Some(CaptureFault::ShortRecord)),
        _ => (3, None),
    }
}

/// What the two records stop with, where the source fails behind so many bytes.
fn stop_at_cut(len: usize) -> Stopped {
    let number = match len {
        0..24 => 0,
        24..94 => 1,
        94..164 => 2,
        _ => 3,
    };
    (number, Some(CaptureFault::ReadFault))
}

#[test]
fn capture_of_no_records(rt: HostRuntime) -> Result<(), Fail> {
    for pieces in PIECES {
        let stop = stop_of(rt.alloc(), ethernet_header(), pieces, None)?;
        assert_eq!(rt; stop, (1, None));
    }
    Ok(())
}

#[test]
fn last_record_cut_short(rt: HostRuntime) -> Result<(), Fail> {
    let mut bytes = two_records(rt.alloc())?;
    let _ = bytes.pop();
    for pieces in PIECES {
        let stop = stop_of(rt.alloc(), &bytes, pieces, None)?;
        assert_eq!(rt; stop, (2, Some(CaptureFault::ShortRecord)));
    }
    Ok(())
}

#[test]
fn record_too_long(rt: HostRuntime) -> Result<(), Fail> {
    let bytes = too_long(rt.alloc())?;
    for pieces in PIECES {
        let stop = stop_of(rt.alloc(), &bytes, pieces, None)?;
        assert_eq!(rt; stop, (2, Some(CaptureFault::RecordTooLong)));
    }
    Ok(())
}

#[test]
fn cooked_capture_is_read(rt: HostRuntime) -> Result<(), Fail> {
    let bytes = cooked_capture(rt.alloc())?;
    for pieces in PIECES {
        let source = source_of(rt.alloc(), &bytes, pieces, None)?;
        let capture = Capture::open(rt.alloc(), source, MOST).map_err(|refused| refused.fault)?;
        assert_eq!(rt; capture.link(), Link::Cooked);
        has_one_record(&rt, capture, &cooked(rt.alloc())?)?;
    }
    Ok(())
}

/// The capture gives one record, at second 100, and gives it again.
fn has_one_record<S: Source>(
    rt: &impl Abort,
    mut capture: Capture<S>,
    bytes: &[u8],
) -> Result<(), Fail> {
    assert!(rt; capture.current().is_none());
    let record = capture.next()?.ok_or("a record")?;
    assert_eq!(rt; (record.second, record.nanos), (100, 0));
    assert_eq!(rt; record.bytes, bytes);
    let again = capture.current().ok_or("the same record")?;
    assert_eq!(rt; again.bytes, bytes);
    for _ in 0..2 {
        assert!(rt; capture.next()?.is_none());
        assert!(rt; capture.current().is_none());
    }
    assert_eq!(rt; capture.close().faults(), 0);
    Ok(())
}

/// A raw capture of three records of one byte.
fn three_raw_records(alloc: Global) -> Result<Vec<u8>, AllocError> {
    let mut bytes = Vec::from_slice(
        alloc,
        b"\xd4\xc3\xb2\xa1\x02\x00\x04\x00\x00\x00\x00\x00\x00\x00\x00\x00\x00\x00\x04\x00\x65\x00\x00\x00".as_slice(),
    )?;
    for _ in 0..3 {
        bytes.extend_from_slice(b"\x64\0\0\0\0\0\0\0\x01\0\0\0\x01\0\0\0\x45".as_slice())?;
    }
    Ok(bytes)
}

#[test]
fn capture_limit_of_two(rt: HostRuntime) -> Result<(), Fail> {
    let bytes = three_raw_records(rt.alloc())?;
    for (limit, records, fault) in [
        (1, 1, Some(CaptureFault::TooManyPackets)),
        (2, 2, Some(CaptureFault::TooManyPackets)),
        (3, 3, None),
        (MOST, 3, None),
    ] {
        let source = source_of(rt.alloc(), &bytes, &[7, 16], None)?;
        let counted = count_records(rt.alloc(), source, limit).map_err(|refused| refused.fault)?;
        assert_eq!(rt;
            (counted.records, counted.fault),
            (records, fault),
            "limit {limit}"
        );
    }
    Ok(())
}

#[test]
fn read_fault_between_records(rt: HostRuntime) -> Result<(), Fail> {
    let bytes = two_records(rt.alloc())?;
    let frame = frame(rt.alloc())?;
    for pieces in PIECES {
        let source = source_of(rt.alloc(), &bytes, pieces, Some(94))?;
        let mut capture = Capture::open(rt.alloc(), source, MOST).map_err(|refused| refused.fault)?;
        let record = capture.next()?.ok_or("a record")?;
        assert_eq!(rt; record.bytes, frame.as_slice());
        for _ in 0..2 {
            assert!(rt; matches!(capture.next(), Err(CaptureFault::ReadFault)));
        }
        assert_eq!(rt; capture.faults(), 1);
    }
    Ok(())
}

#[test]
fn two_records_truncated(rt: HostRuntime) -> Result<(), Fail> {
    let bytes = two_records(rt.alloc())?;
    for len in 0..=bytes.len() {
        for pieces in PIECES {
            let stop = stop_of(rt.alloc(), &bytes[..len], pieces, None)?;
            assert_eq!(rt; stop, stop_at_end(len), "{len} bytes");
        }
    }
    Ok(())
}

#[test]
fn two_records_cut(rt: HostRuntime) -> Result<(), Fail> {
    let bytes = two_records(rt.alloc())?;
    for len in 0..=bytes.len() {
        for pieces in PIECES {
            let stop = stop_of(rt.alloc(), &bytes, pieces, Some(len as u64))?;
            assert_eq!(rt; stop, stop_at_cut(len), "cut behind {len} bytes");
        }
    }
    Ok(())
}

/// The nanoseconds of the first record, whose fraction is the greatest.
fn greatest_nanos(alloc: Global, magic: &[u8]) -> Result<u64, Fail> {
    let mut bytes = Vec::from_slice(alloc, magic)?;
    bytes.extend_from_slice(
        b"\x02\0\x04\0\0\0\0\0\0\0\0\0\0\0\x04\0\x65\0\0\0\x09\0\0\0\xff\xff\xff\xff\0\0\0\0\0\0\0\0".as_slice(),
    )?;
    let source = source_of(alloc, &bytes, &[], None)?;
    let mut capture = Capture::open(alloc, source, MOST).map_err(|refused| refused.fault)?;
    Ok(capture.next()?.ok_or("a record")?.nanos)
}

#[test]
fn fractions_in_nanoseconds(rt: HostRuntime) -> Result<(), Fail> {
    let micros = greatest_nanos(rt.alloc(), b"\xd4\xc3\xb2\xa1".as_slice())?;
    assert_eq!(rt; micros, 4_294_967_295_000);
    let nanos = greatest_nanos(rt.alloc(), b"\x4d\x3c\xb2\xa1".as_slice())?;
    assert_eq!(rt; nanos, 4_294_967_295);
    Ok(())
}

/// What an Ethernet capture stops with, where one byte of its header is another.
fn stop_of_header(alloc: Global, at: usize, byte: u8) -> Result<Stopped, AllocError> {
    let mut bytes = Vec::from_slice(alloc, ethernet_header())?;
    if at < bytes.len() {
        bytes[at] = byte;
    }
    stop_of(alloc, &bytes, &[], None)
}

#[test]
fn header_faults(rt: HostRuntime) -> Result<(), Fail> {
    for (at, byte, want) in [
        (0, 0xd5, CaptureFault::BadMagic),
        (4, 0x03, CaptureFault::BadVersion),
        (6, 0x03, CaptureFault::BadVersion),
        (20, 0x02, CaptureFault::UnknownLink),
        (23, 0x01, CaptureFault::UnknownLink),
    ] {
        let stop = stop_of_header(rt.alloc(), at, byte)?;
        assert_eq!(rt; stop, (0, Some(want)), "at {at}");
    }
    Ok(())
}

#[test]
fn faults_in_words(rt: HostRuntime) -> Result<(), Fail> {
    let fault = CaptureFault::RecordTooLong;
    assert_eq!(rt; fault.word(), "RecordTooLong");
    let text = fault.to_string(rt.alloc())?;
    assert_eq!(rt; text.as_str(), "a record is longer than 262,144 bytes");
    Ok(())
}

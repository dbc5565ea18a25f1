use fw_base::{Library, Name, Sink, Source};
use std::test::Fail;
use std::{fs, io, process};
use system_files::{FaultCounter, FileLibrary};

/// A new directory with a file of five bytes, `five`.
fn directory(rt: &HostRuntime, test: &str) -> Result<String, Fail> {
    let id = process::id(rt.process());
    let path = format!(in rt.alloc(); "/tmp/input_tests_{test}_{id}")?;
    if fs::exists(rt, path.as_str())? {
        fs::remove_dir_all(rt, path.as_str())?;
    }
    fs::create_dir(rt, path.as_str())?;
    let five = format!(in rt.alloc(); "{path}/five")?;
    fs::write(rt, five.as_str(), b"fives".as_slice())?;
    Ok(path)
}

#[test]
fn file_is_read_to_its_end(rt: HostRuntime) -> Result<(), Fail> {
    let alloc = rt.alloc();
    let path = directory(&rt, "read")?;
    let five = format!(in alloc; "{path}/five")?;
    let mut library = FileLibrary::new(&rt);
    let Ok(mut file) = library.open(Name::new(alloc, five.as_bytes())?) else {
        panic!(rt; "the file is there, and was not opened");
    };
    let mut buffer = [0u8; 3];
    assert!(rt; file.read(&mut buffer) == Ok(3));
    assert!(rt; buffer == *b"fiv");
    assert!(rt; file.read(&mut buffer) == Ok(2));
    assert!(rt; buffer[..2].starts_with(b"es"));
    assert!(rt; file.read(&mut buffer) == Ok(0));
    assert_eq!(rt; file.faults(), 0);
    fs::remove_dir_all(&rt, path.as_str())?;
    Ok(())
}

#[test]
fn missing_file_is_refused(rt: HostRuntime) -> Result<(), Fail> {
    let alloc = rt.alloc();
    let path = directory(&rt, "missing")?;
    let six = format!(in alloc; "{path}/six")?;
    let mut library = FileLibrary::new(&rt);
    assert!(rt; library.open(Name::new(alloc, six.as_bytes())?).is_err());
    assert!(rt; library.open(Name::new(alloc, b"\xff".as_slice())?).is_err());
    fs::remove_dir_all(&rt, path.as_str())?;
    Ok(())
}

#[test]
fn reading_a_directory_is_counted(rt: HostRuntime) -> Result<(), Fail> {
    let alloc = rt.alloc();
    let path = directory(&rt, "directory")?;
    let mut library = FileLibrary::new(&rt);
    let Ok(mut opened) = library.open(Name::new(alloc, path.as_bytes())?) else {
        panic!(rt; "the directory is there, and was not opened");
    };
    let mut buffer = [0u8; 3];
    assert!(rt; opened.read(&mut buffer).is_err());
    assert_eq!(rt; opened.faults(), 1);
    fs::remove_dir_all(&rt, path.as_str())?;
    Ok(())
}

#[test]
fn line_is_taken_by_standard_output(rt: HostRuntime) -> Result<(), Fail> {
    let mut out = FaultCounter::new(io::writer(&rt));
    assert!(rt; out.write(b"") == Ok(0));
    assert!(rt; out.write(b"\n") == Ok(1));
    Ok(())
}

#[test]
fn vector_has_what_its_sink_took(rt: HostRuntime) -> Result<(), Fail> {
    let mut taken = Vec::new(rt.alloc());
    let mut out = FaultCounter::new(&mut taken);
    assert!(rt; out.write(b"end 1 ") == Ok(6));
    assert!(rt; out.write(b"records 3\n") == Ok(10));
    assert!(rt; taken.as_slice() == b"end 1 records 3\n".as_slice());
    Ok(())
}

#[test]
fn full_writer_is_a_failed_call(rt: HostRuntime) -> Result<(), Fail> {
    let mut room = [0u8; 3];
    let mut out = FaultCounter::new(room.as_mut_slice());
    assert!(rt; out.write(b"four") == Ok(3));
    assert!(rt; out.write(b"") == Ok(0));
    assert!(rt; out.write(b"r").is_err());
    assert!(rt; room == *b"fou");
    Ok(())
}

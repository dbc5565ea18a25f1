use super::{ROOM, assert_seen, run_over};
use memory_files::MemoryLibrary;
use std::test::Fail;

#[test]
fn load_of_one_record(rt: HostRuntime) -> Result<(), Fail> {
    let alloc = rt.alloc();
    let mut library = MemoryLibrary::new(alloc);
    let seen = run_over(&rt, alloc, &["load", "1"], &mut library, ROOM)?;
    let text = b"records 1\nallow 0\ndeny 1\neditions 2\nentries 3\nstates 0\n";
    assert_seen(&rt, &seen, "load_of_one_record", 0, text);
    assert_eq!(rt; seen.sources, 0);
    Ok(())
}

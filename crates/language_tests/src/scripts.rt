use fw_command::ScriptFault;
use memory_files::MemorySink;
use std::alloc::Global;
use std::test::Fail;

mod commands;
mod faults;
mod limits;

/// What is printed of the fault.
fn printed(alloc: Global, fault: ScriptFault) -> Result<MemorySink, Fail> {
    let mut out = MemorySink::new(alloc, 1000)?;
    fault.write(&mut out)?;
    Ok(out)
}

ghost use Rattle.std.specs.Prelude.{◌≡◌, ◌≤◌, IfOk, vec_len};

use capture_tracks::OpenedCapture;
use fw_base::{Direction, MOST_LOAD_RECORDS, Name, OutOfMemory, Port};
use load_maker::{Load, MadeCapture, make};
use std::alloc::Global;

/// A made capture of so many records, as it would be taken at `in:em0`.
fn made(alloc: Global, records: u32) -> Result<OpenedCapture<MadeCapture>, OutOfMemory>
    requires { (1 ≤ records) × (records ≤ MOST_LOAD_RECORDS) }
{
    let Load { script: _, capture } = make(alloc, records)?;
    let port = Port {
        direction: Direction::In,
        interface: Name::new(alloc, b"em0")?,
    };
    Ok(OpenedCapture {
        port,
        source: capture,
    })
}

/// Four of them.
pub fn four(alloc: Global, records: u32) -> Result<Vec<OpenedCapture<MadeCapture>>, OutOfMemory>
    requires { (1 ≤ records) × (records ≤ MOST_LOAD_RECORDS) }
    ensures { IfOk result (λ captures. vec_len captures ≡ 4) }
{
    let mut captures = Vec::with_capacity(alloc, 4)?;
    captures.push(made(alloc, records)?)?;
    captures.push(made(alloc, records)?)?;
    captures.push(made(alloc, records)?)?;
    captures.push(made(alloc, records)?)?;
    Ok(captures)
}

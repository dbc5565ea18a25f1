ghost use Rattle.std.specs.Prelude.{◌≡◌, ◌≤◌, ◌∷◌, [], IfOk, vec_len};
ghost use Rattle.replay_driver.specs.RunResult.{IsWritable};
ghost use Rattle.replay_driver.specs.Found.{FindsLoad, made_capture};

use crate::edition_replay::replay_in_turn;
use crate::run_result::RunResult;
use capture_tracks::OpenedCapture;
use fw_base::{Direction, MOST_LOAD_RECORDS, Name, OutOfMemory, Port};
use fw_command::Pace;
use load_maker::{Load, MadeCapture, make};
use replay_setup::{ScriptError, read_first_edition};
use std::alloc::Global;

/// The made capture, as it would be taken at `in:em0`.
fn open_made(alloc: Global, capture: MadeCapture) -> Result<OpenedCapture<MadeCapture>, OutOfMemory>
    ensures { IfOk result (λ opened. opened ≡ made_capture capture) }
{
    let port = Port {
        direction: Direction::In,
        interface: Name::new(alloc, b"em0")?,
    };
    Ok(OpenedCapture {
        port,
        source: capture,
    })
}

/// Replays the load of so many records, 1 to 1,000,000. Its source is dropped.
pub(crate) fn replay_load(alloc: Global, records: u32) -> Result<RunResult, OutOfMemory>
    requires { (1 ≤ records) × (records ≤ MOST_LOAD_RECORDS) }
    ensures writable { IfOk result IsWritable }
    ensures finds { IfOk result (FindsLoad records) }
{
    let Load { script, capture } = make(alloc, records)?;
    let mut opened = Vec::new(alloc);
    opened.push(open_made(alloc, capture)?)?;
    match read_first_edition(alloc, Pace::Serial, &script) {
        Ok(first) => {
            let replayed = replay_in_turn(alloc, first, None, opened)?;
            Ok(RunResult::Summed {
                kept: replayed.record,
                ends: replayed.ends,
            })
        }
        Err(ScriptError::OutOfMemory) => Err(OutOfMemory),
        Err(error) => Ok(RunResult::Unready(error)),
    }
}

ghost use Rattle.std.specs.Prelude.{◌≤◌, IfOk, vec_len};
ghost use Rattle.std.specs.List.{AllByRecursion};
ghost use Rattle.fw_world.specs.Caches.{IsCacheSize};
ghost use Rattle.fw_command.specs.WellFormed.{IsStepInRange};
ghost use Rattle.serial_replay.specs.Replay.{IsSerialReplay};

use crate::replay_world::ReplayWorld;
use crate::running::Running;
use crate::tracks::Tracks;
use capture_tracks::{OpenedCapture, Replayed, limit_for};
use fw_base::{MOST_CAPTURES, OutOfMemory, Source};
use fw_command::Step;
use rule_chain::Config;
use serial_schedule::Agenda;
use serial_world::{OpenSerial, SerialWorld};
use std::alloc::Global;

/// Replays 1 to 16 captures beside the commands behind `live`: of the captures that still have a record, the one
/// whose next record has the least second, nanosecond and number gives it, and lines that are due run
/// before it. Each capture's lane has a cache for so many verdicts, 1 to 65,536, or none has one. A capture that ends with a fault has given the records before it.
pub fn replay_serial<S: Source>(
    alloc: Global,
    config: Config,
    steps: &[Step],
    cache: Option<u32>,
    captures: Vec<OpenedCapture<S>>,
) -> Result<Replayed<S>, OutOfMemory>
    requires some { 1 ≤ vec_len captures }
    requires few { vec_len captures ≤ MOST_CAPTURES }
    requires cache { IsCacheSize cache }
    requires steps { AllByRecursion IsStepInRange steps.now }
    ensures { IfOk result (IsSerialReplay S.left S.faults config steps.now cache
        captures.items) }
{
    let count = captures.len() as u32;
    let limit = limit_for(count);
    let tracks = Tracks::open(alloc, captures, limit)?;
    let OpenSerial { world, lanes, desk } = SerialWorld::open(alloc, config, count, cache)?;
    let mut run = Running {
        replay: ReplayWorld {
            world,
            desk,
            lanes,
            answers: Vec::new(alloc),
        },
        tracks,
        agenda: Agenda::new(steps),
        taken: 0,
    };
    run.run_all(alloc)?;
    run.close(alloc)
}

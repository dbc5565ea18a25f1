ghost use Rattle.std.specs.Prelude.{◌≡◌, [], IfOk};
ghost use Rattle.fw_world.specs.Caches.{IsCacheSize};
ghost use Rattle.world_tests.specs.Lanes.{IsLaneAt};

use fw_base::{OutOfMemory, Port};
use fw_world::Record;
use rule_chain::Config;
use shared_world::{Desk, Lane, OpenWorld, World};
use std::alloc::Global;
use std::process::Abort;

/// Who calls a world of two lanes.
#[derive(Drop)]
pub(crate) struct Callers {
    pub(crate) first: Lane,
    pub(crate) second: Lane,
    pub(crate) desk: Desk,
}

/// A world of two lanes.
pub(crate) fn open_pair(
    rt: &impl Abort,
    alloc: Global,
    config: Config,
    cache: Option<u32>,
    port: &Port,
) -> Result<(World, Callers), OutOfMemory>
    requires cache { IsCacheSize cache }
    ensures first { IfOk result (λ p. IsLaneAt p.0 1 port.now p.1.first) }
    ensures second { IfOk result (λ p. IsLaneAt p.0 2 port.now p.1.second) }
    ensures desk { IfOk result (λ p. (p.1.desk.world ≡ p.0) × (p.1.desk.lanes ≡ 2)) }
{
    let OpenWorld {
        world,
        mut lanes,
        desk,
    } = World::open(alloc, config, 2, cache)?;
    match (lanes.pop(), lanes.pop()) {
        (Some(second), Some(first)) => Ok((
            world,
            Callers {
                first,
                second,
                desk,
            },
        )),
        _ => panic!(rt; "not two lanes"),
    }
}

/// The record of a world of two lanes, which are given in the order of this list: the second one, and then the
/// first one. The list is empty, and may have the memory for them.
pub(crate) fn close_pair(
    world: World,
    callers: Callers,
    port: &Port,
    list: Vec<Lane>,
) -> Result<Record, OutOfMemory>
    requires first { IsLaneAt world 1 port.now callers.first }
    requires second { IsLaneAt world 2 port.now callers.second }
    requires desk { (callers.desk.world ≡ world) × (callers.desk.lanes ≡ 2) }
    requires empty { list.items ≡ [] }
{
    let Callers {
        first,
        second,
        desk,
    } = callers;
    let mut lanes = list;
    lanes.push(second)?;
    lanes.push(first)?;
    world.close(lanes, desk)
}

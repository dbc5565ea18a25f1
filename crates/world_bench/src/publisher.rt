ghost use Rattle.std.specs.Prelude.{◌≡◌, IfOk};
ghost use Rattle.fw_rule.specs.WellFormed.{IsWellFormed};
ghost use Rattle.rule_edits.specs.Changing.{IsChanging};

use anyhow::{Result, bail};
use bench_times::PAUSE;
use fw_rule::Command;
use shared_world::{Desk, World};
use std::alloc::Global;
use std::sync::Wait;
use std::sync::atomic::{AtomicBool, Ordering};
use std::thread;
use std::time::{Clock, Duration};

/// An edit that enables an enabled set: it makes an edition of the same rules.
fn edit() -> Command
    ensures well_formed { IsWellFormed result }
    ensures changing { IsChanging result }
{
    Command::SetMask {
        disable: 0,
        enable: 2,
    }
}

/// Publishes about 100 times a second until the lanes are done. Answers how often.
pub fn publish_until<R: Clock + Wait>(
    rt: &R,
    alloc: Global,
    world: &World,
    desk: Desk,
    done: &AtomicBool,
) -> Result<u32>
    requires { desk.world ≡ world.now }
{
    let mut desk = desk;
    for published in 0..u32::MAX {
        if done.load(Ordering::SeqCst) {
            return Ok(published);
        }
        desk = publish_next(rt, alloc, world, desk)?;
        thread::sleep(rt, Duration::from_millis(PAUSE));
    }
    Ok(u32::MAX)
}

fn publish_next<R: Wait>(rt: &R, alloc: Global, world: &World, desk: Desk) -> Result<Desk>
    requires { desk.world ≡ world.now }
    ensures { IfOk result (λ after. after.world ≡ world.now) }
{
    let (desk, published) = world.commit(rt, alloc, desk, &edit());
    match published {
        Ok(_) => Ok(desk),
        Err(_) => bail!("a publication that wanted memory"),
    }
}

ghost use Rattle.std.specs.Prelude.{◌≡◌, ◌+◌, ◌<◌, ◌≤◌, true, false};
ghost use Rattle.rm_table.specs.Meanings.{meanings};
ghost use Rattle.rm_table.specs.Moves.{IsWorking, IsOperator, is_revoked, is_drained};
ghost use Rattle.rm_lock.specs.Calls.{WaitsForBehind, WaitsForBook, WaitsForProcessor};

use fw_base::{Kept, Numbered};
use rm_core::{Heard, Phase};
use rm_table::{RmSeat, RmTable, Role, Tried};
use std::hint::spin_loop;
use std::sync::Wait;
use std::thread::yield_now;

/// Turns for which a wait spins before it yields its processor at each further one: sections are short, and
/// with more threads than processors whoever is waited for may not be running.
const SPINS: u32 = 128;

/// Lets some time pass between two tries, behind so many turns; answers the turns then.
fn give_way(turns: u32) -> u32 {
    if turns < SPINS {
        spin_loop();
        turns + 1
    } else {
        yield_now();
        turns
    }
}

/// Tries for the lock behind until a try takes it.
pub(crate) fn take_back<E: Numbered<Tag = B::Facts>, B: Kept, R: Wait>(
    table: &RmTable<E, B>,
    rt: &R,
    seat: &mut RmSeat<E, B>,
)
    requires table { seat.old.table_id ≡ table.now }
    requires working { IsWorking seat.old.me.0 }
    ensures table { seat.new.table_id ≡ seat.old.table_id }
    ensures taken { WaitsForBehind seat.old.me seat.new.me }
{
    let mut turns = 0;
    for _ in rt.forever() {
        match table.take_back(seat) {
            Tried::Taken => return,
            Tried::HeldBy(_) => turns = give_way(turns),
        }
    }
    unreachable!()
}

/// Tries for the book until a try takes it.
pub(crate) fn take_book<E: Numbered<Tag = B::Facts>, B: Kept, R: Wait>(
    table: &RmTable<E, B>,
    rt: &R,
    seat: &mut RmSeat<E, B>,
)
    requires table { seat.old.table_id ≡ table.now }
    requires working { IsWorking seat.old.me.0 }
    requires inside { seat.old.me.0.role ≡ Role.Processor → seat.old.me.0.phase ≡ Phase.In }
    ensures table { seat.new.table_id ≡ seat.old.table_id }
    ensures taken { WaitsForBook (meanings E.Numbered B.Kept) seat.old.me seat.new.me }
{
    let mut turns = 0;
    for _ in rt.forever() {
        match table.take_book(seat) {
            Tried::Taken => return,
            Tried::HeldBy(_) => turns = give_way(turns),
        }
    }
    unreachable!()
}

/// Looks at a processor until it is out.
pub(crate) fn drain<E: Numbered<Tag = B::Facts>, B: Kept, R: Wait>(
    table: &RmTable<E, B>,
    rt: &R,
    seat: &mut RmSeat<E, B>,
    processor: u32,
)
    requires table { seat.old.table_id ≡ table.now }
    requires operator { IsOperator seat.old.me.0 }
    requires above { 0 < processor }
    requires within { processor ≤ seat.old.me.0.count }
    requires revoked { is_revoked seat.old.me.0 processor ≡ true }
    requires undrained { is_drained seat.old.me.0 processor ≡ false }
    ensures table { seat.new.table_id ≡ seat.old.table_id }
    ensures out { WaitsForProcessor (meanings E.Numbered B.Kept) seat.old.me processor seat.new.me }
{
    let mut turns = 0;
    for _ in rt.forever() {
        match table.drain(seat, processor) {
            Heard::Drained => return,
            Heard::NotOut => turns = give_way(turns),
            Heard::Held | Heard::Revoked(_) | Heard::Number(_) | Heard::Nothing => unreachable!(),
        }
    }
    unreachable!()
}

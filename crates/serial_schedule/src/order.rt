ghost use Rattle.std.specs.Prelude.{◌≡◌, IfSome};
ghost use Rattle.serial_schedule.specs.Order.{IsLeast, first_capture, first_head};

use crate::Moment;
use crate::head::{Head, earlier, head_at};

/// The capture, by its number from 0, that gives the next record; `moments` are those of the captures' next
/// records. `None` where no capture has a record left.
pub fn first_capture(moments: &[Option<Moment>]) -> Option<usize>
    ensures first { result ≡ first_capture moments.now }
    ensures least { IfSome result (IsLeast moments.now) }
{
    let first = first_head(moments)?;
    Some(first.capture)
}

/// The first of the next records.
fn first_head(moments: &[Option<Moment>]) -> Option<Head>
    ensures { result ≡ first_head 0 moments.now }
{
    let mut first = None;
    let mut capture = moments.len();
    while capture > 0 {
        capture -= 1;
        first = earlier(head_at(capture, moments[capture]), first);
    }
    first
}

ghost use Rattle.std.specs.Prelude.{◌≡◌};
ghost use Rattle.serial_schedule.specs.Order.{earlier_head, head_at};

use crate::Moment;

/// A capture, by its number from 0, and when its next record was captured.
#[derive(Clone, Copy)]
pub struct Head {
    pub capture: usize,
    pub moment: Moment,
}

/// The head of a capture, if it has a record left.
pub fn head_at(capture: usize, moment: Option<Moment>) -> Option<Head>
    ensures { result ≡ head_at capture moment }
{
    match moment {
        Some(moment) => Some(Head { capture, moment }),
        None => None,
    }
}

/// The earlier of two, the first where neither is before the other.
pub fn earlier(first: Option<Head>, second: Option<Head>) -> Option<Head>
    ensures { result ≡ earlier_head first second }
{
    match (first, second) {
        (Some(head), Some(other)) => {
            if other.moment.is_before(head.moment) {
                Some(other)
            } else {
                Some(head)
            }
        }
        (Some(head), None) => Some(head),
        (None, other) => other,
    }
}

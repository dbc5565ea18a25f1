ghost use Rattle.std.specs.Prelude.{◌≡◌};
ghost use Rattle.report_values.specs.declared.unfit.Unfit.TheVariants as unfit;

use fw_base::OutOfMemory;
use std::alloc::{AllocError, AllocFailed};

/// Why the lines of a report aren't read.
#[derive(Clone, Copy)]
pub enum Unfit<'a> {
    /// With this rest of the text begins the first line that is none that a report has there. It is empty where
    /// lines lack at the end.
    At(&'a [u8]),
    OutOfMemory,
}

impl<'a> From<&'a [u8]> for Unfit<'a> {
    ghost from_gives = { λ at got. got ≡ unfit.At at };

    fn from(at: &'a [u8]) -> Unfit<'a> {
        Unfit::At(at)
    }
}

impl<'a> From<OutOfMemory> for Unfit<'a> {
    ghost from_gives = { λ _ got. got ≡ unfit.OutOfMemory };

    fn from(_error: OutOfMemory) -> Unfit<'a> {
        Unfit::OutOfMemory
    }
}

impl<'a> From<AllocError> for Unfit<'a> {
    ghost from_gives = { λ _ got. got ≡ unfit.OutOfMemory };

    fn from(_error: AllocError) -> Unfit<'a> {
        Unfit::OutOfMemory
    }
}

impl<'a, T: Drop> From<AllocFailed<T>> for Unfit<'a> {
    ghost from_gives = { λ _ got. got ≡ unfit.OutOfMemory };

    fn from(_error: AllocFailed<T>) -> Unfit<'a> {
        Unfit::OutOfMemory
    }
}

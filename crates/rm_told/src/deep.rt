ghost use Rattle.std.specs.Prelude.{◌≡◌, Some};

use fw_base::{Kept, Numbered};
use rm_lock::Reading;
use std::marker::Model;

/// The greatest depth of a section.
pub const MOST_DEPTH: u32 = 4_294_967_295;

/// A processor in a section, with its edition and the depth of the section: how many sections of the
/// processor have begun and not ended, 1 to `MOST_DEPTH`.
#[derive(Drop)]
pub struct Deep<E: Numbered<Tag = B::Facts>, B: Kept> {
    pub(crate) reading: Reading<E, B>,
    pub(crate) depth: u32,
}

impl<E: Numbered<Tag = B::Facts>, B: Kept> Model for Deep<E, B> {
    ghost use Rattle.std.specs.Prelude.{◌<◌};
    ghost use Rattle.rm_told.specs.DeepState.{DeepState};

    ghost Value = { DeepState E B B.Facts E.Label B.Item };

    ghost view = { λ d. record { reading = d.reading; depth = d.depth } };

    ghost invariant = { λ d. 0 < d.depth };
}

impl<E: Numbered<Tag = B::Facts>, B: Kept> Deep<E, B> {
    /// The depth, from 1.
    pub fn depth(&self) -> u32
        ensures { result ≡ self.now.depth }
    {
        self.depth
    }

    /// The edition that `enter` found, which stays the published one until the outermost `leave`.
    pub fn edition(&self) -> &E
        ensures { self.now.reading.view.part.reading ≡ Some result.now }
    {
        self.reading.edition()
    }
}

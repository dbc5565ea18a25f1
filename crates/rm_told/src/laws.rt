//! What holds of a processor over many calls: functions with no body, whose contracts are the laws.

ghost use Rattle.rm_table.specs.Meanings.{meanings};
ghost use Rattle.rm_told.specs.Laws.{ToldLaw, DepthLaw};

use fw_base::{Kept, Numbered};

/// A processor that was told of a publication by a receipt enters that edition or a later one, whatever
/// calls it made in between and whatever other threads called, and at every depth of a section its edition is
/// the one that it entered.
pub fn told_readers_meet_the_edition<E: Numbered<Tag = B::Facts>, B: Kept>()
    ensures told { ToldLaw (meanings E.Numbered B.Kept) }
    ensures depth { DepthLaw (meanings E.Numbered B.Kept) }
{}

//! What holds of each kind of atomic step, and at every moment between two steps: functions with no body,
//! whose contracts are the laws.

ghost use Rattle.rm_table.specs.Meanings.{meanings};
ghost use Rattle.rm_table.specs.Laws.{EachKindIsItsEvent};
ghost use Rattle.rm_table.specs.Moments.{ReadersReadWhatIsPublished, NoEditionIsReplacedUnderAReader, HoldersAreSeats, WhatIsSeenIsPublished};

use fw_base::{Kept, Numbered};

/// From any state that the running rule allows, each kind of step leads to one that it allows, and the
/// core of the lock takes the allowed event of the step's row; a step on the book, a try that finds another
/// holder and a step that splits or joins seats leave the core as it was.
pub fn each_kind_is_its_event<E: Numbered<Tag = B::Facts>, B: Kept>()
    ensures { EachKindIsItsEvent (meanings E.Numbered B.Kept) }
{}

/// At every moment between two steps, a processor that is in reads an edition of the published number and
/// of the last name and tag of the history; and so until it leaves.
pub fn readers_read_what_is_published<E: Numbered<Tag = B::Facts>, B: Kept>()
    ensures { ReadersReadWhatIsPublished (meanings E.Numbered B.Kept) }
{}

/// No edition is replaced under a reader. At every moment an edition that isn't in its slot is with its
/// processor, which is in, or with the operator, which counts that processor as drained; and none that is
/// counted so is in. An edition in its slot is of the published number.
pub fn no_edition_is_replaced_under_a_reader<E: Numbered<Tag = B::Facts>, B: Kept>()
    ensures { NoEditionIsReplacedUnderAReader (meanings E.Numbered B.Kept) }
{}

/// Every seat exists, once, so whom the words of the two locks name is somebody, who knows of it.
pub fn holders_are_seats<E: Numbered<Tag = B::Facts>, B: Kept>()
    ensures { HoldersAreSeats (meanings E.Numbered B.Kept) }
{}

/// What a processor has seen, or was told of by a receipt, is published, and stands in the history. Who has
/// heard a receipt reads its edition or a later one.
pub fn what_is_seen_is_published<E: Numbered<Tag = B::Facts>, B: Kept>()
    ensures { WhatIsSeenIsPublished (meanings E.Numbered B.Kept) }
{}

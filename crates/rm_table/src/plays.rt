ghost use Rattle.rm_table.specs.Meanings.{meanings};
ghost use Rattle.rm_table.specs.Plays.{TellsRaise, TellsCheck, TellsLower, TellsTakeBehind, TellsGiveBehind, TellsRegain, TellsRevoke, TellsDrain, TellsNumber, TellsPublish, TellsTakeBook, TellsGiveBook};

use crate::padded_slot::PaddedSlot;
use crate::rule::LockView;
use atomic_table::Play;
use fw_base::{Kept, Numbered};

/// What each kind of step tells.
pub(crate) struct Raise;

impl<E: Numbered<Tag = B::Facts>, B: Kept> Play<PaddedSlot<E, B>, LockView<E, B>> for Raise {
    ghost then = { TellsRaise (meanings E.Numbered B.Kept) };
}

pub(crate) struct Check;

impl<E: Numbered<Tag = B::Facts>, B: Kept> Play<PaddedSlot<E, B>, LockView<E, B>> for Check {
    ghost then = { TellsCheck (meanings E.Numbered B.Kept) };
}

pub(crate) struct Lower;

impl<E: Numbered<Tag = B::Facts>, B: Kept> Play<PaddedSlot<E, B>, LockView<E, B>> for Lower {
    ghost then = { TellsLower (meanings E.Numbered B.Kept) };
}

pub(crate) struct TakeBack;

impl<E: Numbered<Tag = B::Facts>, B: Kept> Play<PaddedSlot<E, B>, LockView<E, B>> for TakeBack {
    ghost then = { TellsTakeBehind (meanings E.Numbered B.Kept) };
}

pub(crate) struct GiveBack;

impl<E: Numbered<Tag = B::Facts>, B: Kept> Play<PaddedSlot<E, B>, LockView<E, B>> for GiveBack {
    ghost then = { TellsGiveBehind (meanings E.Numbered B.Kept) };
}

pub(crate) struct Regain;

impl<E: Numbered<Tag = B::Facts>, B: Kept> Play<PaddedSlot<E, B>, LockView<E, B>> for Regain {
    ghost then = { TellsRegain (meanings E.Numbered B.Kept) };
}

pub(crate) struct Revoke;

impl<E: Numbered<Tag = B::Facts>, B: Kept> Play<PaddedSlot<E, B>, LockView<E, B>> for Revoke {
    ghost then = { TellsRevoke (meanings E.Numbered B.Kept) };
}

pub(crate) struct Drain;

impl<E: Numbered<Tag = B::Facts>, B: Kept> Play<PaddedSlot<E, B>, LockView<E, B>> for Drain {
    ghost then = { TellsDrain (meanings E.Numbered B.Kept) };
}

pub(crate) struct ReadNumber;

impl<E: Numbered<Tag = B::Facts>, B: Kept> Play<PaddedSlot<E, B>, LockView<E, B>> for ReadNumber {
    ghost then = { TellsNumber (meanings E.Numbered B.Kept) };
}

pub(crate) struct Publish;

impl<E: Numbered<Tag = B::Facts>, B: Kept> Play<PaddedSlot<E, B>, LockView<E, B>> for Publish {
    ghost then = { TellsPublish (meanings E.Numbered B.Kept) };
}

pub(crate) struct TakeBook;

impl<E: Numbered<Tag = B::Facts>, B: Kept> Play<PaddedSlot<E, B>, LockView<E, B>> for TakeBook {
    ghost then = { TellsTakeBook (meanings E.Numbered B.Kept) };
}

pub(crate) struct GiveBook;

impl<E: Numbered<Tag = B::Facts>, B: Kept> Play<PaddedSlot<E, B>, LockView<E, B>> for GiveBook {
    ghost then = { TellsGiveBook (meanings E.Numbered B.Kept) };
}

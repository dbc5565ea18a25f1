use super::Captured;
use counter_book::Tally;
use eval_engine::{Cause, Docket, DocketEntry, Judgement, Verdict};
use state_asks::RuleRef;
use std::alloc::Global;
use std::process::Abort;
use std::test::Fail;

/// What is entered for a record.
#[derive(Clone, Copy)]
pub(super) enum Entered {
    Other,
    Malformed(u8),
    /// The verdict, the number of the rule, the number of the edition, and the cause.
    Judged(Verdict, u16, u64, Cause),
}

/// What was entered and counted for all the captures' records.
#[derive(Drop)]
pub(super) struct Records {
    pub(super) dockets: Vec<Docket>,
    pub(super) tallies: Vec<Tally>,
}

fn entry_of(entered: Entered) -> DocketEntry {
    match entered {
        Entered::Other => DocketEntry::Other,
        Entered::Malformed(kind) => DocketEntry::Malformed(kind),
        Entered::Judged(verdict, number, edition, cause) => DocketEntry::judged(Judgement {
            edition,
            verdict,
            rule: RuleRef { id: 0, number },
            cause,
        }),
    }
}

fn docket_of(alloc: Global, entries: &[Entered]) -> Result<Docket, Fail> {
    let mut docket = Docket::new(alloc);
    for entered in entries {
        docket.push(entry_of(*entered))?;
    }
    Ok(docket)
}

fn dockets_of(alloc: Global, captures: &[Captured<'_>]) -> Result<Vec<Docket>, Fail> {
    let mut dockets = Vec::new(alloc);
    for capture in captures {
        dockets.push(docket_of(alloc, capture.entries)?)?;
    }
    Ok(dockets)
}

/// Counts a packet of that many bytes under one of the numbers below 3.
fn count(rt: &impl Abort, tally: &mut Tally, id: u32, bytes: u32) -> Result<(), Fail> {
    assert!(rt; id < 3);
    tally.fit(3)?;
    tally.hit(id, bytes);
    Ok(())
}

fn tally_of(rt: &impl Abort, alloc: Global, counted: &[(u32, u32)]) -> Result<Tally, Fail> {
    let mut tally = Tally::new(alloc);
    tally.fit(3)?;
    for (id, bytes) in counted {
        count(rt, &mut tally, *id, *bytes)?;
    }
    Ok(tally)
}

fn tallies_of(
    rt: &impl Abort,
    alloc: Global,
    captures: &[Captured<'_>],
) -> Result<Vec<Tally>, Fail> {
    let mut tallies = Vec::new(alloc);
    for capture in captures {
        tallies.push(tally_of(rt, alloc, capture.counted)?)?;
    }
    Ok(tallies)
}

pub(super) fn records_of(
    rt: &impl Abort,
    alloc: Global,
    captures: &[Captured<'_>],
) -> Result<Records, Fail> {
    let dockets = dockets_of(alloc, captures)?;
    let tallies = tallies_of(rt, alloc, captures)?;
    Ok(Records { dockets, tallies })
}

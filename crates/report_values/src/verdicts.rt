ghost use Rattle.std.specs.Prelude.{◌≡◌};
ghost use Rattle.report_values.specs.Verdicts as spec;

use crate::Records;
use eval_engine::{DocketEntry, Verdict};

/// The verdict that a record was judged with, if it was judged.
fn verdict_in(entry: &DocketEntry) -> Option<Verdict>
    ensures { result ≡ spec.verdict_in entry.now }
{
    Some(entry.judgement()?.verdict)
}

/// Whether a record is malformed, of whatever kind.
fn is_malformed(entry: &DocketEntry) -> bool
    ensures { result ≡ spec.is_malformed entry.now }
{
    match entry {
        DocketEntry::Malformed(_) => true,
        DocketEntry::Other
        | DocketEntry::Judged { .. }
        | DocketEntry::Limited { .. }
        | DocketEntry::Full { .. } => false,
    }
}

/// Whether two records came to one verdict, by whatever rule and for whatever cause.
fn is_one_verdict(old: &DocketEntry, new: &DocketEntry) -> bool
    ensures { result ≡ spec.is_one_verdict old.now new.now }
{
    verdict_in(old) == verdict_in(new) && is_malformed(old) == is_malformed(new)
}

/// How many records came to another verdict, of two lists that tell of each in one place. What the longer list has
/// behind the end of the other isn't counted.
pub fn other_verdicts(old: &Records, new: &Records) -> u64
    ensures { result ≡ spec.other_verdicts old.now new.now }
{
    let mut others: u64 = 0;
    for place in 0..old.len().min(new.len()) {
        if !is_one_verdict(old.entry(place), new.entry(place)) {
            others += 1;
        }
    }
    others
}

ghost use Rattle.std.specs.Prelude.{◌≡◌};
ghost use Rattle.eval_engine.specs.Dockets.{judged_entry, judgement_in};

use crate::{Cause, Judgement, Verdict};
use state_asks::RuleRef;

/// What is entered for a record of a capture. A judgement has a variant for each cause, and its fields stand
/// there one by one, the narrow ones first, so that an entry takes 24 bytes.
#[derive(Clone, Copy, Debug, PartialEq, Eq, Hash)]
pub enum DocketEntry {
    /// It is neither IPv4 nor IPv6.
    Other,
    /// Its header can't be read; the kind is 1 to 5.
    Malformed(u8),
    /// It was judged: the rule's action ended the search.
    Judged {
        verdict: Verdict,
        rule: RuleRef,
        edition: u64,
    },
    /// It was judged: so many states were counted, and the rule's `limit` isn't above it.
    Limited {
        verdict: Verdict,
        rule: RuleRef,
        states: u32,
        edition: u64,
    },
    /// It was judged: so many states were there, and `dyn_max` isn't above it.
    Full {
        verdict: Verdict,
        rule: RuleRef,
        states: u32,
        edition: u64,
    },
}

impl DocketEntry {
    /// The entry of a judgement.
    pub const fn judged(judgement: Judgement) -> DocketEntry
        ensures { result ≡ judged_entry judgement }
    {
        let Judgement {
            edition,
            verdict,
            rule,
            cause,
        } = judgement;
        match cause {
            Cause::Rule => DocketEntry::Judged {
                verdict,
                rule,
                edition,
            },
            Cause::Limit(states) => DocketEntry::Limited {
                verdict,
                rule,
                states,
                edition,
            },
            Cause::Full(states) => DocketEntry::Full {
                verdict,
                rule,
                states,
                edition,
            },
        }
    }

    /// The judgement that it is of, if it is of one.
    pub fn judgement(&self) -> Option<Judgement>
        ensures { result ≡ judgement_in self.now }
    {
        match *self {
            DocketEntry::Other | DocketEntry::Malformed(_) => None,
            DocketEntry::Judged {
                verdict,
                rule,
                edition,
            } => Some(Judgement {
                edition,
                verdict,
                rule,
                cause: Cause::Rule,
            }),
            DocketEntry::Limited {
                verdict,
                rule,
                states,
                edition,
            } => Some(Judgement {
                edition,
                verdict,
                rule,
                cause: Cause::Limit(states),
            }),
            DocketEntry::Full {
                verdict,
                rule,
                states,
                edition,
            } => Some(Judgement {
                edition,
                verdict,
                rule,
                cause: Cause::Full(states),
            }),
        }
    }
}

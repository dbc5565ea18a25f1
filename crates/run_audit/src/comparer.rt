ghost use Rattle.std.specs.Prelude.{◌≡◌, ◌<◌, ◌≤◌, ◌+◌, ◌++◌, [], ◌∷◌, Some, IfOk, Ok, length, take, drop};
ghost use Rattle.std.specs.Io.{WritesAtMost};
ghost use Rattle.std.specs.Io.KnownBytes.{WriteAppends};
ghost use Rattle.fw_base.specs.Faults.{HasCause};
ghost use Rattle.run_audit.specs.Comparison.{line_of_first_other};

use crate::meeting::{first_difference, met_behind};
use crate::written::{Written, with_bytes};
use fw_base::{Failed, Sink};
use std::marker::Model;
use std::mem;
use std::snapshot::Snapshot;

/// A sink that keeps nothing: it compares what is written with a text, which it is made with.
/// Contracts see both.
#[derive(Drop)]
pub struct Comparer {
    text: Vec<u8>,
    /// So many bytes of the text were written.
    met: usize,
    /// Whether a byte that isn't the text's was written behind them.
    other: bool,
    written: Written,
}

impl Model for Comparer {
    ghost use Rattle.run_audit.specs.Comparison.{Compared};
    ghost use Rattle.run_audit.specs.Meeting.{IsMet};

    ghost Value = { Compared };

    ghost view = { λ c. record { text = c.text.items; written = c.written.value } };

    ghost invariant = { λ c. IsMet c.text.items c.written.value c.met c.other };
}

impl Comparer {
    /// A sink that compares with this text.
    pub fn new(text: Vec<u8>) -> Comparer
        ensures { result ≡ record { text = text.items; written = [] } }
    {
        Comparer {
            text,
            met: 0,
            other: false,
            written: Snapshot::of(&[]),
        }
    }

    /// The first line in which what was written isn't the text; `None` exactly where they are
    /// equal.
    pub fn differs(&self) -> Option<u64>
        ensures { result ≡ line_of_first_other 1 self.now.written self.now.text }
    {
        first_difference(&self.text, self.met, self.other)
    }
}

impl Sink for Comparer {
    ghost state = { λ c. record {
      written = Some c.written;
      made_with = c.text ∷ [];
      faults = 0;
    } };

    fn write(&mut self, bytes: &[u8]) -> Result<usize, Failed>
        ensures bound { WritesAtMost result bytes.now }
        ensures advances { IfOk result (λ count. 0 < length bytes.now → 0 < count) }
        ensures bytes { WriteAppends (Some self.old.written) (Some self.new.written) result
            bytes.now }
        ensures cause { HasCause 0 0 result }

        // It takes all, and compares with the same text.
        ensures all { result ≡ Ok (length bytes.now) }
        ensures same { self.new ≡ record self.old { written = self.old.written ++ bytes.now } }
    {
        let (met, other) = met_behind(&self.text, self.met, self.other, bytes);
        let written = mem::replace(&mut self.written, Snapshot::of(&[]));
        self.written = with_bytes(written, bytes);
        self.met = met;
        self.other = other;
        Ok(bytes.len())
    }
}

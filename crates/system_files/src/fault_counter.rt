ghost use Rattle.std.specs.Prelude.{◌≡◌, ◌≤◌};
ghost use Rattle.fw_base.specs.Faults.{Rose};

use fw_base::{Failed, Sink, Source};
use std::io::{Read, Write};
use std::marker::Model;

/// A reader or a writer whose faults are counted: a source where it reads, a sink where it writes. Contracts see it
/// and the count: what it tells, the source or the sink tells. A file of the system and standard output tell no
/// bytes.
#[derive(Drop)]
pub struct FaultCounter<T> {
    inner: T,
    faults: u64,
}

impl<T> Model for FaultCounter<T> {
    ghost use Rattle.std.specs.Prelude.{ℕ};

    ghost Value = { T × ℕ };

    ghost view = { λ c. (c.inner, c.faults) };
}

impl<T: Drop> FaultCounter<T> {
    /// No call of it failed yet.
    pub fn new(inner: T) -> FaultCounter<T>
        ensures { result ≡ (inner, 0) }
    {
        FaultCounter { inner, faults: 0 }
    }

    /// Counts a call that failed.
    fn failed(&mut self) -> Failed
        ensures inner { self.new.0 ≡ self.old.0 }
        ensures later { self.old.1 ≤ self.new.1 }
        ensures rose { Rose self.old.1 self.new.1 }
    {
        self.faults = self.faults.saturating_add(1);
        Failed
    }
}

impl<R: Read + Drop> Source for FaultCounter<R> {
    ghost left = { λ c. R.remaining c.0 };

    ghost faults = { λ c. c.1 };

    fn read(&mut self, buf: &mut [u8]) -> Result<usize, Failed> {
        match self.inner.read(buf) {
            Ok(count) => Ok(count),
            Err(_) => Err(self.failed()),
        }
    }

    fn faults(&self) -> u64 {
        self.faults
    }
}

impl<W: Write + Drop> Sink for FaultCounter<W> {
    ghost use Rattle.std.specs.Prelude.{[]};

    ghost state = { λ c. record { written = W.contents c.0; made_with = []; faults = c.1 } };

    fn write(&mut self, bytes: &[u8]) -> Result<usize, Failed> {
        match self.inner.write(bytes) {
            Ok(count) if count > 0 || bytes.is_empty() => Ok(count),
            _ => Err(self.failed()),
        }
    }
}

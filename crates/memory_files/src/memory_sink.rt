ghost use Rattle.std.specs.Prelude.{◌≡◌, ◌≢◌, ◌<◌, ◌↔◌, ℕ, min, Option, Some, [], IfOk, OnOk, OnErr, IsErr, length};
ghost use Rattle.std.specs.Io.{WritesAtMost};
ghost use Rattle.std.specs.Io.KnownBytes.{WriteAppends};
ghost use Rattle.fw_base.specs.Faults.{HasCause};
ghost use Rattle.memory_files.specs.Memory.{MemoryText, after_taken, after_refused};

use fw_base::{Failed, OutOfMemory, Sink};
use std::alloc::Global;
use std::marker::Model;

/// A sink over memory, for tests: it has room for so many bytes and no more.
#[derive(Drop)]
pub struct MemorySink {
    text: Vec<u8>,
    room: usize,
    failures: u64,
}

impl Model for MemorySink {
    ghost use Rattle.std.specs.Prelude.{◌+◌, ◌≤◌, vec_len, vec_capacity};
    ghost use Rattle.memory_files.specs.Memory.{MemoryText};

    ghost Value = { MemoryText };

    ghost view = { λ s. record { text = s.text.items; room = s.room; failures = s.failures } };

    ghost invariant = { λ s. vec_len s.text + s.room ≤ vec_capacity s.text };
}

impl MemorySink {
    /// An empty sink with room for `room` bytes, all of whose memory is taken here.
    pub fn new(alloc: Global, room: u64) -> Result<MemorySink, OutOfMemory>
        ensures { IfOk result (λ sink. sink ≡ record { text = []; room = room; failures = 0 }) }
    {
        let room = room as usize;
        Ok(MemorySink {
            text: Vec::with_capacity(alloc, room)?,
            room,
            failures: 0,
        })
    }

    /// The bytes that it took.
    pub fn written(&self) -> &[u8]
        ensures { result.now ≡ self.now.text }
    {
        &self.text
    }
}

impl Sink for MemorySink {
    ghost state = { λ s. record { written = Some s.text; made_with = []; faults = s.failures } };

    fn write(&mut self, bytes: &[u8]) -> Result<usize, Failed>
        ensures bound { WritesAtMost result bytes.now }
        ensures advances { IfOk result (λ count. 0 < length bytes.now → 0 < count) }
        ensures bytes { WriteAppends (Some self.old.text) (Some self.new.text) result bytes.now }
        ensures cause { HasCause self.old.failures self.new.failures result }

        // Which it is, how many bytes are taken, and what room is left.
        ensures full { IsErr result ↔ ((bytes.now ≢ []) × (self.old.room ≡ 0)) }
        ensures count { IfOk result (λ count. count ≡ min (length bytes.now) self.old.room) }
        ensures taken { IfOk result (λ count. self.new ≡ after_taken self.old count bytes.now) }
        ensures refused { OnErr result (self.new ≡ after_refused self.old) }
    {
        if self.room == 0 && !bytes.is_empty() {
            self.failures = self.failures.saturating_add(1);
            return Err(Failed);
        }
        let count = bytes.len().min(self.room);
        self.text.extend_from_slice(&bytes[..count]).unwrap();
        self.room -= count;
        Ok(count)
    }
}

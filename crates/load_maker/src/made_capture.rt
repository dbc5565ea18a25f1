ghost use Rattle.std.specs.Prelude.{◌≡◌, ◌-◌, ◌≤◌, ◌++◌, Some, length, take, drop, min};
ghost use Rattle.load_maker.specs.Load as load;
ghost use Rattle.load_maker.specs.Packets.{load_record, packet_of};

use crate::generator::Generator;
use crate::packets::{RECORD_BYTES, packet_length, put, put_packet};
use arrayvec::ArrayVec;
use fw_base::{Failed, MOST_LOAD_RECORDS, Source};
use std::marker::Model;

/// The header of a raw capture, pcap 2.4, little-endian, in microseconds.
const CAPTURE_HEADER: [u8; 24] = [
    0xd4, 0xc3, 0xb2, 0xa1, 2, 0, 4, 0, 0, 0, 0, 0, 0, 0, 0, 0, 0, 0, 4, 0, 0x65, 0, 0, 0,
];

/// The capture of a load, as a source that never fails: each of its records is made when it is read.
#[derive(Drop)]
pub struct MadeCapture {
    /// The header or a record, and how many of its bytes were read.
    piece: ArrayVec<u8, RECORD_BYTES>,
    taken: usize,
    /// How many records are still to be made, and the number of the first of them.
    more: u32,
    number: u32,
    generator: Generator,
}

impl Model for MadeCapture {
    ghost use Rattle.std.specs.Prelude.{◌+◌, ◌≤◌, ◌++◌, List, ℕ, drop, length};
    ghost use Rattle.load_maker.specs.Load.{records_from};
    ghost use Rattle.fw_base.specs.declared.limits.TheConstants.{MOST_LOAD_RECORDS};

    ghost Value = { List ℕ };

    ghost view = { λ c. drop c.taken c.piece.items
        ++ records_from c.more c.number c.generator.state };

    ghost invariant = { λ c. (c.taken ≤ length c.piece.items) × (1 ≤ c.number)
        × (c.number + c.more ≤ MOST_LOAD_RECORDS + 1) };
}

impl MadeCapture {
    /// The capture of so many records.
    #[tactic(auto, unfolding(crate::specs::Load::load_capture))]
    pub(crate) fn new(records: u32) -> MadeCapture
        requires { records ≤ MOST_LOAD_RECORDS }
        ensures { result ≡ load.load_capture records }
    {
        let mut piece = ArrayVec::new();
        put(&mut piece, &[&CAPTURE_HEADER]);
        MadeCapture {
            piece,
            taken: 0,
            more: records,
            number: 1,
            generator: Generator {
                state: u64::from(records),
            },
        }
    }
}

impl Source for MadeCapture {
    ghost left = { λ bytes. Some bytes };

    ghost faults = { λ bytes. 0 };

    fn read(&mut self, buf: &mut [u8]) -> Result<usize, Failed> {
        if self.taken == self.piece.len() {
            if self.more == 0 {
                return Ok(0);
            }
            self.piece = made_record(self.number, &mut self.generator);
            self.taken = 0;
            self.number += 1;
            self.more -= 1;
        }
        let count = copy_from(&self.piece, self.taken, buf);
        self.taken += count;
        Ok(count)
    }

    fn faults(&self) -> u64 {
        0
    }
}

/// Copies what the piece has from `start` on to the front of the buffer, as far as there is room, and answers how
/// many bytes these are.
fn copy_from(piece: &[u8], start: usize, buffer: &mut [u8]) -> usize
    requires { start ≤ length piece.now }
    ensures count { result ≡ min (length piece.now - start) (length buffer.old) }
    ensures bytes { buffer.new ≡ take result (drop start piece.now) ++ drop result buffer.old }
    ensures length { length buffer.new ≡ length buffer.old }
{
    let rest = &piece[start..];
    let count = rest.len().min(buffer.len());
    buffer[..count].copy_from_slice(&rest[..count]);
    count
}

/// The record of that number, for which three numbers are drawn.
fn made_record(number: u32, generator: &mut Generator) -> ArrayVec<u8, RECORD_BYTES>
    requires { 1 ≤ number }
    ensures state { generator.new.state
        ≡ load.next_draw (load.next_draw (load.next_draw generator.old.state)) }
    ensures record { result.items
        ≡ load.record_drawn number (load.next_draw generator.old.state)
        (load.next_draw (load.next_draw generator.old.state))
        (load.next_draw (load.next_draw (load.next_draw generator.old.state))) }
{
    let kind = (generator.draw() % 4) as u8;
    let host = (generator.draw() % 200) as u8;
    let port = (generator.draw() % 1000 + 1024) as u16;
    record(1000 + (number - 1) / 10, kind, host, port)
}

/// The record of that second with its packet.
#[tactic(auto, unfolding(crate::specs::Packets::load_record))]
fn record(second: u32, kind: u8, host: u8, port: u16) -> ArrayVec<u8, RECORD_BYTES>
    ensures { result.items ≡ load_record second (packet_of kind host port) }
{
    let mut out = ArrayVec::new();
    let second = second.to_le_bytes();
    let length = packet_length(kind, host, port).to_le_bytes();
    put(&mut out, &[&second, &[0, 0, 0, 0], &length, &length]);
    put_packet(&mut out, kind, host, port);
    out
}

ghost use Rattle.std.specs.Prelude.{◌≡◌, ◌≤◌, ◌<◌, [], length, is_some, true, IfOk, IfSome, MatchResult};
ghost use Rattle.std.specs.Option.{option_map};

use crate::capture_fault::{CaptureFault, OpenFault, Stop};
use crate::finding::find_record;
use crate::format::Format;
use crate::limits::{MOST_RECORD_BYTES, MOST_RECORDS};
use crate::opening::take_header;
use crate::record::Record;
use crate::records::record_in;
use crate::window::Window;
use fw_base::{Link, Source};
use std::alloc::Global;

/// A capture that is read from a source record by record (pcap 2.4).
///
/// It has one buffer of 393,232 bytes, which it takes at the opening: no later call takes memory. Each
/// read asks the source for 131,072 bytes or more, and a record's bytes are moved at most once.
#[derive(Drop)]
pub struct Capture<S> {
    source: S,
    format: Format,
    /// The record that was given last, and the bytes behind it.
    window: Window,
    /// How many bytes the record that was given last takes; 0 where the last call gave none.
    size: usize,
    /// How many records are given at most.
    limit: u32,
    /// How many records were given.
    given: u32,
    stop: Option<Stop>,
    ghost within: { size ≤ length window },
    ghost most: { size ≤ 262160 },
    ghost header: { 0 < size → 16 ≤ size },
    ghost few: { given ≤ limit },
    ghost stopped: { is_some stop ≡ true → size ≡ 0 },
}

impl<S: Source> Capture<S> {
    ghost use Rattle.std.specs.Borrow.{sem};
    ghost use Rattle.std.specs.Io.BufRead.{Rests};
    ghost use Rattle.pcap_read.specs.contracts.capture.Capture.{the_row};
    ghost use Rattle.pcap_read.specs.Capture.{IsOpened, IsRefused, Advances, captured_of, answer_of, answer_with, source_of, current_of, link_of};

    /// Takes the buffer and reads the header; `limit`, 1 to 4,194,304, is how many records are given at
    /// most. On a fault the source is given back.
    ///
    /// Faults, tested in this order: fewer than 24 bytes, an unknown magic number, a version other than
    /// 2.4, an unknown link type. Besides, the source may fail, and memory may run out before anything
    /// is read.
    pub fn open(alloc: Global, source: S, limit: u32) -> Result<Capture<S>, OpenFault<S>>
        requires some { 1 ≤ limit }
        requires most { limit ≤ MOST_RECORDS }
        ensures { MatchResult result
            (IsOpened S.left S.faults limit source)
            (IsRefused S.left S.faults limit source) }
    {
        match Window::new(alloc) {
            Ok(window) => Capture::begin(window, source, limit),
            Err(error) => Err(OpenFault {
                fault: CaptureFault::from(error),
                source,
            }),
        }
    }

    /// Reads the header into an empty window.
    fn begin(mut window: Window, mut source: S, limit: u32) -> Result<Capture<S>, OpenFault<S>>
        requires { window ≡ [] }
        ensures { MatchResult result
            (IsOpened S.left S.faults limit source)
            (IsRefused S.left S.faults limit source) }
    {
        match take_header(&mut window, &mut source) {
            Ok(format) => Ok(Capture {
                source,
                format,
                window,
                size: 0,
                limit,
                given: 0,
                stop: None,
            }),
            Err(fault) => Err(OpenFault { fault, source }),
        }
    }

    /// The next record, or `None` at the end of the capture, behind a whole record or the header. It is
    /// lent from the buffer. After a fault each further call answers the same fault, and after the end
    /// each answers `None`.
    ///
    /// Faults, tested in this order: a byte behind as many records as are given at most, an end 1 to 15
    /// bytes into a record's header, a captured length above 262,144, an end in a record's bytes. Besides,
    /// the source may fail: records that were read whole before are given first, and no read is made
    /// after a failing one.
    pub fn next(&mut self) -> Result<Option<Record<'_>>, CaptureFault>
        ensures small { IfOk result (λ found. IfSome found (λ r.
            length r.bytes.now ≤ MOST_RECORD_BYTES)) }
        ensures* advances { sem 𝓛
            (Rests (the_row S.row) self.entry (λ new.
            Advances S.left S.faults self.old new (answer_of result))) }
    {
        self.advance()?;
        Ok(self.current())
    }

    /// The record that the last call of `next` gave, again; `None` exactly where it gave none, or there
    /// was no call.
    #[inline(always)]
    pub fn current(&self) -> Option<Record<'_>>
        ensures value { option_map captured_of result ≡ current_of self.now }
        ensures small { IfSome result (λ r. length r.bytes.now ≤ MOST_RECORD_BYTES) }
    {
        if self.size == 0 {
            return None;
        }
        let bytes = self.window.bytes();
        Some(record_in(self.format, &bytes[..self.size]))
    }

    /// Goes on to the next record as `next` does, with its faults; answers whether there is one, which
    /// `current` lends.
    pub fn advance(&mut self) -> Result<bool, CaptureFault>
        ensures advances { Advances S.left S.faults self.old self.new
            (answer_with result (current_of self.new)) }
        ensures found { IfOk result (λ found. found ≡ is_some (current_of self.new)) }
    {
        match self.stop {
            Some(Stop::End) => return Ok(false),
            Some(Stop::Fault(fault)) => return Err(fault),
            None => {}
        }
        self.window.skip(self.size);
        self.size = 0;
        match find_record(
            &mut self.window,
            &mut self.source,
            self.format,
            self.limit,
            self.given,
        ) {
            Ok(Some(size)) => {
                self.size = size;
                self.given += 1;
                Ok(true)
            }
            Ok(None) => {
                self.stop = Some(Stop::End);
                Ok(false)
            }
            Err(fault) => {
                self.stop = Some(Stop::Fault(fault));
                Err(fault)
            }
        }
    }

    /// The link type of its packets.
    pub fn link(&self) -> Link
        ensures { result ≡ link_of self.now }
    {
        self.format.link
    }

    /// The source's count of faults.
    pub fn faults(&self) -> u64
        ensures { result ≡ S.faults (source_of self.now) }
    {
        self.source.faults()
    }

    /// Gives the source back.
    pub fn close(self) -> S
        ensures { result ≡ source_of self }
    {
        let Capture { source, .. } = self;
        source
    }
}

ghost use Rattle.std.specs.Prelude.{◌≡◌, Some};
ghost use Rattle.pcap_read.specs.Words.{word_of, sentence_of};
ghost use Rattle.pcap_read.specs.declared.capture_fault.CaptureFault.TheVariants.{ReadFault, OutOfMemory};

use fw_base::Failed;
use std::error::Error;
use std::fmt;

/// Why a capture gives no further record (pcap 2.4).
#[derive(Clone, Copy, Debug, PartialEq, Eq)]
pub enum CaptureFault {
    /// The capture ends before its header of 24 bytes does.
    ShortHeader,
    /// The magic number is neither 0xa1b2c3d4 nor 0xa1b23c4d, in either byte order.
    BadMagic,
    /// The version isn't 2.4.
    BadVersion,
    /// The link type is none of 0, 1, 101 and 113.
    UnknownLink,
    /// The capture ends 1 to 15 bytes into a record's header.
    ShortRecordHeader,
    /// A record's captured length is above 262,144.
    RecordTooLong,
    /// The capture ends before a record's captured bytes do.
    ShortRecord,
    /// A byte follows the last of the records that are read at most.
    TooManyPackets,
    /// The source failed: its count of faults rose.
    ReadFault,
    /// Memory ran out, at the opening.
    OutOfMemory,
}

impl CaptureFault {
    /// Its own name, as a report prints it.
    pub fn word(&self) -> &'static str
        ensures { result.now ≡ word_of self.now }
    {
        match self {
            CaptureFault::ShortHeader => "ShortHeader",
            CaptureFault::BadMagic => "BadMagic",
            CaptureFault::BadVersion => "BadVersion",
            CaptureFault::UnknownLink => "UnknownLink",
            CaptureFault::ShortRecordHeader => "ShortRecordHeader",
            CaptureFault::RecordTooLong => "RecordTooLong",
            CaptureFault::ShortRecord => "ShortRecord",
            CaptureFault::TooManyPackets => "TooManyPackets",
            CaptureFault::ReadFault => "ReadFault",
            CaptureFault::OutOfMemory => "OutOfMemory",
        }
    }
}

impl fmt::Display for CaptureFault {
    ghost output = { λ fault. Some (sentence_of fault) };

    fn fmt<W: fmt::Write>(&self, f: &mut fmt::Formatter<W>) -> fmt::Result {
        match self {
            CaptureFault::ShortHeader => f.write_str("the capture ends in its header"),
            CaptureFault::BadMagic => f.write_str("the magic number is unknown"),
            CaptureFault::BadVersion => f.write_str("the version is not 2.4"),
            CaptureFault::UnknownLink => f.write_str("the link type is unknown"),
            CaptureFault::ShortRecordHeader => f.write_str("the capture ends in a record's header"),
            CaptureFault::RecordTooLong => f.write_str("a record is longer than 262,144 bytes"),
            CaptureFault::ShortRecord => f.write_str("the capture ends in a record"),
            CaptureFault::TooManyPackets => f.write_str(
                "the capture has more records than are read",
            ),
            CaptureFault::ReadFault => f.write_str("the capture could not be read"),
            CaptureFault::OutOfMemory => f.write_str("out of memory"),
        }
    }
}

impl Error for CaptureFault {}

impl From<Failed> for CaptureFault {
    ghost from_gives = { λ _ fault. fault ≡ ReadFault };

    fn from(_error: Failed) -> CaptureFault {
        CaptureFault::ReadFault
    }
}

impl From<fw_base::OutOfMemory> for CaptureFault {
    ghost from_gives = { λ _ fault. fault ≡ OutOfMemory };

    fn from(_error: fw_base::OutOfMemory) -> CaptureFault {
        CaptureFault::OutOfMemory
    }
}

/// How a capture stopped.
#[derive(Clone, Copy)]
pub enum Stop {
    /// At its end, behind a whole record or its header.
    End,
    /// With a fault.
    Fault(CaptureFault),
}

/// Why a source could not be opened as a capture, and the source.
#[derive(Drop)]
pub struct OpenFault<S> {
    pub fault: CaptureFault,
    pub source: S,
}

ghost use Rattle.std.specs.Prelude.{Some};
ghost use Rattle.fw_lex.specs.Sentences.{sentence_of};

use std::error::Error;
use std::fmt;

/// A word of a line: the bytes from `start` up to `end`, counted from 0.
#[derive(Clone, Copy)]
pub struct Token {
    /// Where its first byte stands.
    pub start: u32,
    /// One past where its last byte stands.
    pub end: u32,
}

/// Why a line has no words.
#[derive(Clone, Copy, Debug, PartialEq, Eq)]
pub enum LexFault {
    /// A byte before the comment that is none of 32 to 126, tab and carriage return; the column
    /// counts from 1.
    BadByte { column: u32, byte: u8 },
    /// Memory ran out.
    OutOfMemory,
}

impl fmt::Display for LexFault {
    ghost output = { λ fault. Some (sentence_of fault) };

    fn fmt<W: fmt::Write>(&self, f: &mut fmt::Formatter<W>) -> fmt::Result {
        match self {
            LexFault::BadByte { column, byte } => {
                write!(
                    f,
                    "byte {byte} in column {column} may not stand in a script"
                )
            }
            LexFault::OutOfMemory => f.write_str("out of memory"),
        }
    }
}

impl Error for LexFault {}

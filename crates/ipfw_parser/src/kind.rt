ghost use Rattle.std.specs.Prelude.{◌≡◌, Some};
ghost use Rattle.ipfw_parser.specs.Sentences.{sentence_of};

use std::fmt;

/// What is wrong with a line of a script, in the order of the manual's grammar.
#[derive(Clone, Copy, Debug, PartialEq, Eq)]
pub enum Kind {
    /// A word of a fixed set is wanted, and another stands there.
    UnknownWord,
    /// The line ends where a word is wanted.
    MissingWord,
    /// A word stands behind the end of the command.
    ExtraWord,
    /// A number is wanted, and the word isn't one to ten digits.
    BadNumber,
    /// A number is out of its range.
    NumberRange,
    /// An address is wanted, and the word or the element isn't one.
    BadAddress,
    /// The length behind `/` isn't 0 to 32, or 0 to 128 behind an IPv6 address.
    BadPrefix,
    /// Neither a port number, 0 to 65535, nor a service.
    BadPort,
    /// A range of ports whose low is above its high.
    BadRange,
    /// An unknown flag or IP option, or one both named and negated.
    BadFlag,
    /// The name of a table, a flow or an interface with a wrong byte or a wrong length.
    BadName,
    /// A second `keep-state` or `limit`.
    SecondState,
    /// `not` before `keep-state` or `limit`, `:any` behind them, a second `live`, `after` before `live`.
    Misplaced,
    /// A byte that is none of 32 to 126, tab and carriage return.
    BadByte,
}

impl Kind {
    fn words(self) -> &'static str
        ensures { result.now ≡ sentence_of self }
    {
        match self {
            Kind::UnknownWord => "another word is wanted here",
            Kind::MissingWord => "a word is missing",
            Kind::ExtraWord => "a word too many",
            Kind::BadNumber => "a number is wanted here",
            Kind::NumberRange => "the number is out of its range",
            Kind::BadAddress => "an address is wanted here",
            Kind::BadPrefix => "the length of a prefix is 0 to 32, of an IPv6 prefix 0 to 128",
            Kind::BadPort => "a port or a service is wanted here",
            Kind::BadRange => "the range's low port is above its high port",
            Kind::BadFlag => "an unknown flag, or one both set and clear",
            Kind::BadName => "this can't be a name",
            Kind::SecondState => "a second keep-state or limit",
            Kind::Misplaced => "this can't stand here",
            Kind::BadByte => "a byte that may not stand in a script",
        }
    }
}

impl fmt::Display for Kind {
    ghost output = { λ kind. Some (sentence_of kind) };

    fn fmt<W: fmt::Write>(&self, f: &mut fmt::Formatter<W>) -> fmt::Result {
        f.write_str(self.words())
    }
}

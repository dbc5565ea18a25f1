use fw_base::{Failed, Name, Sink, write_pieces, write_text};
use itoa::Buffer;
use replay_setup::{ScriptError, write_unread};

/// What an audit comes to, before a byte is written.
#[derive(Drop)]
pub(crate) enum AuditResult {
    /// A name that couldn't be opened or read.
    Unread(Name),
    /// A script that gives no edition.
    Unready(ScriptError),
    /// The report has more than 1,073,741,824 bytes.
    TooLong,
    /// The report isn't that of a legal record: the first of its lines that shows it.
    No(u64),
    /// The report is that of a legal record.
    Yes,
}

impl AuditResult {
    ghost use Rattle.std.specs.Prelude.{◌≡◌};
    ghost use Rattle.fw_base.specs.Texts.{WritesText};
    ghost use Rattle.audit_driver.specs.AuditTexts as spec;

    /// The status, where the text is written.
    pub(crate) fn status(&self) -> u8
        ensures { result ≡ spec.result_status self.now }
    {
        match self {
            AuditResult::Unread(_) => 4,
            AuditResult::Unready(_) => 2,
            AuditResult::TooLong | AuditResult::No(_) => 7,
            AuditResult::Yes => 0,
        }
    }

    /// Writes what was found: one line.
    #[tactic(auto, unfolding(crate::specs::AuditTexts::result_text))]
    pub(crate) fn write<K: Sink>(&self, out: &mut K) -> Result<(), Failed>
        ensures { WritesText (K.state out.old) (K.state out.new)
            (spec.result_text self.now) result }
    {
        match self {
            AuditResult::Unread(name) => write_unread(out, name.bytes()),
            AuditResult::Unready(error) => error.write(out),
            AuditResult::TooLong => write_text(out, b"audit no TooLong\n"),
            AuditResult::No(line) => {
                let mut digits = Buffer::new();
                let line = digits.format(*line).as_bytes();
                write_pieces(out, &[b"audit no line ", line, b"\n"])
            }
            AuditResult::Yes => write_text(out, b"audit yes\n"),
        }
    }
}

ghost use Rattle.std.specs.Prelude.{◌≡◌, map};
ghost use Rattle.report_page.specs.PlainWords as spec;

/// What ended a capture: the word of the report, and plain words for it.
const FAULTS: [(&[u8], &[u8]); 9] = [
    (b"ShortHeader", b"the capture ends in its header"),
    (b"BadMagic", b"the file is no capture in pcap's format"),
    (b"BadVersion", b"the capture's format isn't of version 2.4"),
    (b"UnknownLink", b"the link type of the capture isn't known"),
    (
        b"ShortRecordHeader",
        b"the capture ends in the header of this record",
    ),
    (
        b"RecordTooLong",
        b"this record is longer than 262,144 bytes",
    ),
    (b"ShortRecord", b"the capture ends in this record"),
    (
        b"TooManyPackets",
        b"the capture has more records than are read",
    ),
    (b"ReadFault", b"the capture could not be read"),
];

/// Why a command is refused: the word of the report, and plain words for it.
const REFUSALS: [(&[u8], &[u8]); 12] = [
    (b"NoSuchRule", b"no rule has that number"),
    (b"ReservedRule", b"rule 65535 can't be changed"),
    (b"ReservedSet", b"set 31 can't be changed"),
    (b"NoSuchTable", b"no table has that name"),
    (b"EntryExists", b"it is there already"),
    (b"NoSuchEntry", b"the table has no such key"),
    (b"TableInUse", b"a rule names the table"),
    (b"WrongType", b"the table is of the other type"),
    (b"TooManyRules", b"there are 65,535 rules already"),
    (b"TooManyCounters", b"there are 16,777,216 counters already"),
    (b"TooManyNames", b"there are 64 flow names already"),
    (b"OutOfMemory", b"memory ran out"),
];

/// Whether the last word of a text is this one.
#[tactic(auto, unfolding(crate::specs::PlainWords::ends_with_word))]
fn ends_with_word(told: &[u8], word: &[u8]) -> bool
    ensures { result ≡ spec.ends_with_word told.now word.now }
{
    match told.strip_suffix(word) {
        Some(before) => before.is_empty() || before.ends_with(b" "),
        None => false,
    }
}

/// The plain words of the text's last word.
fn words_for(words: &[(&'static [u8], &'static [u8])], told: &[u8]) -> &'static [u8]
    ensures { result.now ≡ spec.words_for (map (λ row. (row.0.now, row.1.now)) words.now) told.now }
{
    for (word, plain) in words {
        if ends_with_word(told, word) {
            return plain;
        }
    }
    b"of this cause the page has no other words"
}

/// What ended a capture, by the text that tells it.
pub(crate) fn fault_words(told: &[u8]) -> &'static [u8]
    ensures { result.now ≡ spec.fault_words told.now }
{
    words_for(&FAULTS, told)
}

/// Why a command was refused, in plain words, by the text that tells it: its last word is the
/// report's own for the cause.
pub fn refusal_words(told: &[u8]) -> &'static [u8]
    ensures { result.now ≡ spec.refusal_words told.now }
{
    words_for(&REFUSALS, told)
}

ghost use Rattle.std.specs.Prelude.{◌≡◌};
ghost use Rattle.fw_world.specs.Skips.{entry_for};

use eval_engine::DocketEntry;

/// A record that isn't judged.
#[derive(Clone, Copy)]
pub enum Skipped {
    /// It is neither IPv4 nor IPv6.
    Other,
    /// Its header can't be read; the kind is 1 to 5.
    Malformed(u8),
}

/// What is entered for a record that isn't judged.
pub fn skipped_entry(entry: Skipped) -> DocketEntry
    ensures { result ≡ entry_for entry }
{
    match entry {
        Skipped::Other => DocketEntry::Other,
        Skipped::Malformed(kind) => DocketEntry::Malformed(kind),
    }
}

ghost use Rattle.std.specs.Prelude.{◌≡◌, ◌++◌};

use std::snapshot::Snapshot;

/// What was written, for contracts: a clause reads it as a list, of any length. It has no bytes.
pub(crate) type Written = Snapshot<[u8; 0]>;

/// What was written, and behind it these bytes.
pub(crate) fn with_bytes(written: Written, bytes: &[u8]) -> Written
    ensures { result.value ≡ written.value ++ bytes.now }
{
    let _ = bytes;
    written
}

ghost use Rattle.std.specs.Prelude.{◌≡◌, ◌+◌, ◌≤◌, length};
ghost use Rattle.pcap_read.specs.Reading.{record_of};
ghost use Rattle.pcap_read.specs.Capture.{captured_of};

use crate::finding::RECORD_HEADER_LENGTH;
use crate::format::{Format, Fraction};
use crate::numbers::u32_at;
use crate::record::Record;

/// The record that these bytes are.
#[tactic(auto, unfolding(crate::specs::Reading::record_of))]
#[inline(always)]
pub(crate) fn record_in(format: Format, bytes: &[u8]) -> Record<'_>
    requires { 16 ≤ length bytes.now }
    ensures value { captured_of result ≡ record_of format bytes.now }
    ensures size { length result.bytes.now + 16 ≡ length bytes.now }
{
    let second = u32_at(format.order, 0, bytes);
    let fraction = u64::from(u32_at(format.order, 4, bytes));
    let nanos = match format.fraction {
        Fraction::Micros => fraction * 1000,
        Fraction::Nanos => fraction,
    };
    Record {
        second,
        nanos,
        bytes: &bytes[RECORD_HEADER_LENGTH..],
    }
}

ghost use Rattle.std.specs.Prelude.{◌≡◌, ◌+◌, ◌≤◌, length};
ghost use Rattle.std.specs.Int.{w16, w32};
ghost use Rattle.pcap_read.specs.Reading.{number_at};

use crate::format::ByteOrder;

/// The number of two bytes at a place.
#[tactic(auto, unfolding(crate::specs::Reading::number_at))]
#[inline(always)]
pub(crate) fn u16_at(order: ByteOrder, at: usize, bytes: &[u8]) -> u16
    requires { at + 2 ≤ length bytes.now }
    ensures { result ≡ number_at order w16 at bytes.now }
{
    let (_, behind) = bytes.split_at(at);
    let (front, _) = behind.split_at(2);
    let pair = [front[0], front[1]];
    match order {
        ByteOrder::Little => u16::from_le_bytes(pair),
        ByteOrder::Big => u16::from_be_bytes(pair),
    }
}

/// The number of four bytes at a place.
#[tactic(auto, unfolding(crate::specs::Reading::number_at))]
#[inline(always)]
pub(crate) fn u32_at(order: ByteOrder, at: usize, bytes: &[u8]) -> u32
    requires { at + 4 ≤ length bytes.now }
    ensures { result ≡ number_at order w32 at bytes.now }
{
    let (_, behind) = bytes.split_at(at);
    let (front, _) = behind.split_at(4);
    let four = [front[0], front[1], front[2], front[3]];
    match order {
        ByteOrder::Little => u32::from_le_bytes(four),
        ByteOrder::Big => u32::from_be_bytes(four),
    }
}

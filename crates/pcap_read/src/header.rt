ghost use Rattle.std.specs.Prelude.{◌≡◌, ◌≤◌, length, take};
ghost use Rattle.pcap_read.specs.Causes.{IsFaultOfBytes};
ghost use Rattle.pcap_read.specs.Reading as spec;

use crate::capture_fault::CaptureFault;
use crate::format::{ByteOrder, Format, Fraction};
use crate::numbers::{u16_at, u32_at};
use fw_base::Link;

/// The length of a capture's header.
pub(crate) const HEADER_LENGTH: usize = 24;

/// What the fraction of a time counts, by the magic number.
#[tactic(auto, unfolding(crate::specs::Reading::fraction_of))]
fn fraction_of(magic: u32) -> Option<Fraction>
    ensures { result ≡ spec.fraction_of magic }
{
    if magic == 0xa1b2c3d4 {
        Some(Fraction::Micros)
    } else if magic == 0xa1b23c4d {
        Some(Fraction::Nanos)
    } else {
        None
    }
}

/// The link type of that number.
#[tactic(auto, unfolding(crate::specs::Reading::link_of))]
fn link_of(number: u32) -> Option<Link>
    ensures { result ≡ spec.link_of number }
{
    match number {
        0 => Some(Link::Null),
        1 => Some(Link::Ethernet),
        101 => Some(Link::Raw),
        113 => Some(Link::Cooked),
        _ => None,
    }
}

/// Reads a header behind its magic number.
#[tactic(auto, unfolding(crate::specs::Reading::header_in))]
fn header_in(order: ByteOrder, fraction: Fraction, bytes: &[u8]) -> Result<Format, CaptureFault>
    requires { 24 ≤ length bytes.now }
    ensures value { result ≡ spec.header_in order fraction bytes.now }
    ensures cause { IsFaultOfBytes result }
{
    if u16_at(order, 4, bytes) == 2 && u16_at(order, 6, bytes) == 4 {
        match link_of(u32_at(order, 20, bytes)) {
            None => Err(CaptureFault::UnknownLink),
            Some(link) => Ok(Format {
                order,
                fraction,
                link,
            }),
        }
    } else {
        Err(CaptureFault::BadVersion)
    }
}

/// Reads the header at the front of these bytes.
pub(crate) fn read_header(bytes: &[u8]) -> Result<Format, CaptureFault>
    requires { 24 ≤ length bytes.now }
    ensures value { result ≡ spec.header_of (take 24 bytes.now) }
    ensures cause { IsFaultOfBytes result }
{
    let (header, _) = bytes.split_at(HEADER_LENGTH);
    header_of(header)
}

/// Reads a capture's header (pcap 2.4): its magic number, its version and its link type, in this order.
#[tactic(auto, unfolding(crate::specs::Reading::header_of))]
fn header_of(bytes: &[u8]) -> Result<Format, CaptureFault>
    requires { 24 ≤ length bytes.now }
    ensures value { result ≡ spec.header_of bytes.now }
    ensures cause { IsFaultOfBytes result }
{
    match fraction_of(u32_at(ByteOrder::Little, 0, bytes)) {
        Some(fraction) => header_in(ByteOrder::Little, fraction, bytes),
        None => match fraction_of(u32_at(ByteOrder::Big, 0, bytes)) {
            Some(fraction) => header_in(ByteOrder::Big, fraction, bytes),
            None => Err(CaptureFault::BadMagic),
        },
    }
}

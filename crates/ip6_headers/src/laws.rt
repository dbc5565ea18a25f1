//! Laws of the definition of reading, the contracts of functions that do nothing.
ghost use Rattle.ip6_headers.specs.Chain.{ChainsEnd, MoreHeadersEndAlike};
ghost use Rattle.ip6_headers.specs.Spelling6.{SpelledPacketsAreRead};

/// A packet that is spelled field after field (RFC 8200 sections 3 and 4), with any extension headers,
/// behind a link header that stands for IPv6, is read as its fields, whatever follows it.
pub fn spelled_packets_are_read()
    ensures { SpelledPacketsAreRead }
{}

/// The chain of a packet's headers (RFC 8200 section 4) ends among as many headers as the packet has bytes, and at
/// the same one among any more.
pub fn chains_end_among_their_headers()
    ensures end { ChainsEnd }
    ensures alike { MoreHeadersEndAlike }
{}

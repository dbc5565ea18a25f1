//! Laws of the definition of reading, each the contract of a function that does nothing.
ghost use Rattle.packet_headers.specs.Spelling.{SpelledFramesAreRead, SpelledOptionsAreTold};

/// A frame that is spelled field after field (RFC 791 section 3.1), behind a link header that stands for
/// IPv4, is read as its fields, whatever follows the packet.
pub fn spelled_frames_are_read()
    ensures { SpelledFramesAreRead }
{}

/// The types of options that are spelled one after another are told in their order.
pub fn spelled_options_are_told()
    ensures { SpelledOptionsAreTold }
{}

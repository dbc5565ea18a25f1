//! Frames of a link header and a packet.
use std::alloc::{AllocError, Global};

/// The packet behind a link header.
pub(crate) fn behind(
    alloc: Global,
    link_header: &[u8],
    packet: &[u8],
) -> Result<Vec<u8>, AllocError> {
    let mut frame = Vec::from_slice(alloc, link_header)?;
    frame.extend_from_slice(packet)?;
    Ok(frame)
}

ghost use Rattle.std.specs.Prelude.{◌≡◌, ◌≤◌, ◌<◌, IfOk, IfErr, OnOk, length, vec_len};
ghost use Rattle.buffered_io.specs.declared.whole_source.ReadError.TheVariants as errors;
ghost use Rattle.buffered_io.specs.WholeSource.{ReadsAll, ReadsPart, TakesPiece, TakesNone};

use crate::PIECE_BYTES;
use fw_base::{Failed, OutOfMemory, Source};
use std::alloc::{AllocError, Global};

/// Why a source was not read to its end.
#[derive(Clone, Copy)]
pub enum ReadError {
    /// The source failed.
    Failed,
    /// Memory ran out.
    OutOfMemory,
}

impl From<Failed> for ReadError {
    ghost from_gives = { λ _ e. e ≡ errors.Failed };

    fn from(_error: Failed) -> ReadError {
        ReadError::Failed
    }
}

impl From<AllocError> for ReadError {
    ghost from_gives = { λ _ e. e ≡ errors.OutOfMemory };

    fn from(_error: AllocError) -> ReadError {
        ReadError::OutOfMemory
    }
}

/// A buffer of that many bytes.
fn buffer(alloc: Global, size: usize) -> Result<Vec<u8>, AllocError>
    ensures { IfOk result (λ buffer. vec_len buffer ≡ size) }
{
    vec![in alloc; 0u8; size]
}

/// Reads the next bytes of a source into a buffer, which isn't empty, and appends them. Answers how many
/// they are: 0 only at the end.
fn read_piece<S: Source>(
    source: &mut S,
    buffer: &mut [u8],
    bytes: &mut Vec<u8>,
) -> Result<usize, ReadError>
    requires { 0 < length buffer.old }
    ensures taken { IfOk result (λ count.
        TakesPiece (S.left source.old) (S.left source.new) bytes.old.items bytes.new.items count
        (length buffer.old)) }
    ensures failed { IfErr result (λ error.
        TakesNone (S.left source.old) (S.left source.new) (S.faults source.old)
        (S.faults source.new) error) }
    ensures steady { OnOk result (S.faults source.new ≡ S.faults source.old) }
    ensures later { S.faults source.old ≤ S.faults source.new }
{
    let count = source.read(buffer)?;
    bytes.extend_from_slice(&buffer[..count])?;
    Ok(count)
}

/// Reads a source to its end, or to so many bytes, where none of its reads fails. At the first that fails it
/// is read no further, and what was read before is lost.
pub fn read_up_to<S: Source>(
    alloc: Global,
    source: &mut S,
    most: usize,
) -> Result<Vec<u8>, ReadError>
    ensures all { IfOk result (λ bytes.
        ReadsAll (S.left source.old) (S.left source.new) (S.faults source.old)
        (S.faults source.new) most bytes.items) }
    ensures part { IfErr result (λ error.
        ReadsPart (S.left source.old) (S.left source.new) (S.faults source.old)
        (S.faults source.new) most error) }
    ensures later { S.faults source.old ≤ S.faults source.new }
{
    let mut bytes = Vec::new(alloc);
    let mut buffer = buffer(alloc, PIECE_BYTES)?;
    while bytes.len() < most {
        let room = buffer.len().min(most - bytes.len());
        if read_piece(source, &mut buffer[..room], &mut bytes)? == 0 {
            break;
        }
    }
    Ok(bytes)
}

ghost use Rattle.std.specs.Prelude.{IfOk};
ghost use Rattle.replay_setup.specs.NamedSource.{FindsNamed};

use crate::LibraryView;
use buffered_io::{ReadError, read_up_to};
use fw_base::{Library, Name, OutOfMemory};
use std::alloc::Global;

/// What opening and reading a named file comes to.
#[derive(Drop)]
pub enum NamedSource<S> {
    /// It was read to its end, or as far as it was to be read.
    Read(S, Vec<u8>),
    /// Its source failed before that.
    Broken(S),
    /// The library refused its name.
    Refused,
}

/// Opens the file of this name and reads it to its end, or so many of its bytes.
pub fn read_named<L: Library>(
    alloc: Global,
    name: &Name,
    limit: usize,
    library: &mut L,
) -> Result<NamedSource<L::Reader>, OutOfMemory>
    ensures { IfOk result (FindsNamed ⟦<L as LibraryView>⟧.files limit
        library.old library.new name.now) }
{
    let Ok(mut source) = library.open(name.clone()?) else {
        return Ok(NamedSource::Refused);
    };
    match read_up_to(alloc, &mut source, limit) {
        Ok(bytes) => Ok(NamedSource::Read(source, bytes)),
        Err(ReadError::Failed) => Ok(NamedSource::Broken(source)),
        Err(ReadError::OutOfMemory) => Err(OutOfMemory),
    }
}

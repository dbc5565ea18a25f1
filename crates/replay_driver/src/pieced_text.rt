ghost use Rattle.std.specs.Prelude.{◌≡◌, [], Err};
ghost use Rattle.fw_base.specs.Texts.{WritesText};
ghost use Rattle.replay_driver.specs.RunResult.{IsWritable, result_text};

use crate::run_result::RunResult;
use buffered_io::PieceSink;
use fw_base::{Failed, Sink};

/// Writes what was found in pieces as large as the buffer, which is empty, and gives the sink back.
pub(crate) fn write_pieced<K: Sink>(sink: K, text: (Vec<u8>, &RunResult)) -> (K, Result<(), Failed>)
    requires empty { text.0.items ≡ [] }
    requires writable { IsWritable text.1.now }
    ensures { WritesText (K.state sink) (K.state result.0) (result_text text.entry.1.now) result.1 }
{
    let (buffer, found) = text;
    let mut pieces = PieceSink::new(sink, buffer);
    let written = match found.write(&mut pieces) {
        Ok(()) => pieces.flush(),
        Err(Failed) => Err(Failed),
    };
    (pieces.into_inner(), written)
}

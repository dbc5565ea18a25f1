ghost use Rattle.std.specs.Prelude.{◌≡◌, ◌<◌, IfOk, length, flat_map};
ghost use Rattle.std.specs.Io.{WritesAtMost};
ghost use Rattle.std.specs.Io.KnownBytes.{WriteAppends};
ghost use Rattle.fw_base.specs.Faults.{HasCause};
ghost use Rattle.fw_base.specs.Texts.{SinkState, WritesText};

use crate::Failed;

/// Where text goes.
///
/// Contracts see the bytes that were written, where the sink tells them, the texts that it was made
/// with, which stay, and a count of its faults, which never falls.
pub trait Sink: Drop {
    ghost state: { Self → SinkState };

    /// Takes some of the front of `bytes` and answers how many: at least one, unless there are none.
    /// Where it fails it takes nothing; it fails only where the count of faults rose.
    fn write(&mut self, bytes: &[u8]) -> Result<usize, Failed>
        ensures bound { WritesAtMost result bytes.now }
        ensures advances { IfOk result (λ count. 0 < length bytes.now → 0 < count) }
        ensures bytes { WriteAppends (state self.old).written (state self.new).written result
            bytes.now }
        ensures made { (state self.new).made_with ≡ (state self.old).made_with }
        ensures cause { HasCause (state self.old).faults (state self.new).faults result };
}

/// Writes the whole text. Where the sink fails, a front of the text was written.
pub fn write_text<K: Sink>(out: &mut K, text: &[u8]) -> Result<(), Failed>
    ensures { WritesText (K.state out.old) (K.state out.new) text.now result }
{
    let mut rest = text;
    while !rest.is_empty() {
        let count = out.write(rest)?;
        rest = &rest[count..];
    }
    Ok(())
}

/// Writes the pieces one after the other. Where the sink fails, a front of them was written.
pub fn write_pieces<K: Sink>(out: &mut K, pieces: &[&[u8]]) -> Result<(), Failed>
    ensures { WritesText (K.state out.old) (K.state out.new)
        (flat_map (λ piece. piece.now) pieces.now) result }
{
    for piece in pieces {
        write_text(out, piece)?;
    }
    Ok(())
}

ghost use Rattle.std.specs.Prelude.{◌≡◌, ◌++◌, codes};
ghost use Rattle.fw_base.specs.Texts.{WritesText};
ghost use Rattle.rule_text.specs.Canonical as text;
ghost use Rattle.rule_text.specs.Canonical.{spaced_text};

use crate::writing::{Piece, write_pieces};
use fw_base::{Failed, Name, Sink};
use fw_rule::DEFAULT_FLOW;

/// Writes the name behind a space and a colon, but for `default`.
pub(crate) fn write_flow_name<K: Sink>(out: &mut K, name: &Name) -> Result<(), Failed>
    ensures { WritesText (K.state out.old) (K.state out.new)
        (spaced_text (text.flow_words name.now)) result }
{
    if name.bytes() == DEFAULT_FLOW {
        Ok(())
    } else {
        write_pieces(out, &[Piece::Text(b" :"), Piece::Text(name.bytes())])
    }
}

ghost use Rattle.fw_base.specs.Texts.{WritesText};
ghost use Rattle.replay_setup.specs.UnreadName.{unread_text};

use fw_base::{Failed, Sink, write_pieces};

/// Writes which name couldn't be opened or read, a line.
#[tactic(auto, unfolding(crate::specs::UnreadName::unread_text))]
pub fn write_unread<K: Sink>(out: &mut K, name: &[u8]) -> Result<(), Failed>
    ensures { WritesText (K.state out.old) (K.state out.new) (unread_text name.now) result }
{
    write_pieces(out, &[b"cannot read ", name, b"\n"])
}

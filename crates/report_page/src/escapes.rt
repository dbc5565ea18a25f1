ghost use Rattle.fw_base.specs.Texts.{WritesText};
ghost use Rattle.report_page.specs.Escapes as spec;

use fw_base::{Failed, Sink, write_text};

/// Writes a byte so that it is no markup.
fn write_escaped_byte<K: Sink>(out: &mut K, byte: u8) -> Result<(), Failed>
    ensures { WritesText (K.state out.old) (K.state out.new) (spec.escaped_byte byte) result }
{
    if byte == b'&' {
        write_text(out, b"&amp;")
    } else if byte == b'<' {
        write_text(out, b"&lt;")
    } else if byte == b'>' {
        write_text(out, b"&gt;")
    } else if byte == b'"' {
        write_text(out, b"&quot;")
    } else if byte == b'\'' {
        write_text(out, b"&#39;")
    } else if byte < b' ' || b'~' < byte {
        write_text(out, b"?")
    } else {
        write_text(out, &[byte])
    }
}

/// Writes a text so that no byte of it is markup.
#[tactic(auto, unfolding(crate::specs::Escapes::escaped))]
pub fn write_escaped<K: Sink>(out: &mut K, text: &[u8]) -> Result<(), Failed>
    ensures { WritesText (K.state out.old) (K.state out.new) (spec.escaped text.now) result }
{
    for byte in text {
        write_escaped_byte(out, *byte)?;
    }
    Ok(())
}

/// No byte of an escaped text begins or ends a tag or the value of an attribute.
pub fn escaped_text_has_no_markup()
    ensures { spec.EscapedHasNoMarkup }
{}

ghost use Rattle.std.specs.Prelude.{◌≡◌, ℕ, List, map};
ghost use Rattle.fw_base.specs.Texts.{WritesText};
ghost use Rattle.rule_text.specs.Canonical.{item_text, network_text, range_text};
ghost use Rattle.fw_base.specs.Addr.{address_text};

use crate::address6_text::write_prefix6;
use crate::writing::{Element, Piece, write_pieces};
use fw_base::{Addr, Failed, PortRange, Prefix, Sink};
use fw_rule::AddrItem;

/// Writes an address as four numbers with dots between them. Where the sink fails, a front of that was
/// written.
#[tactic(auto, unfolding(fw_base::specs::Addr::address_text))]
pub fn write_address<K: Sink>(out: &mut K, address: Addr) -> Result<(), Failed>
    ensures { WritesText (K.state out.old) (K.state out.new) (address_text address.0) result }
{
    let [first, second, third, fourth] = address.0.to_be_bytes();
    let dot = Piece::Text(b".");
    let first = Piece::Number(u32::from(first));
    let second = Piece::Number(u32::from(second));
    let third = Piece::Number(u32::from(third));
    let fourth = Piece::Number(u32::from(fourth));
    write_pieces(out, &[first, dot, second, dot, third, dot, fourth])
}

/// Writes a prefix, one of 32 without its length.
#[tactic(auto, unfolding(crate::specs::Canonical::network_text))]
fn write_prefix<K: Sink>(out: &mut K, prefix: Prefix) -> Result<(), Failed>
    ensures { WritesText (K.state out.old) (K.state out.new) (network_text prefix) result }
{
    write_address(out, prefix.address())?;
    let bits = prefix.length();
    if bits == 32 {
        return Ok(());
    }
    write_pieces(out, &[Piece::Text(b"/"), Piece::Number(u32::from(bits))])
}

impl Element for AddrItem {
    ghost text = { item_text };

    fn write<K: Sink>(&self, out: &mut K) -> Result<(), Failed> {
        match self {
            AddrItem::Any => write_pieces(out, &[Piece::Text(b"any")]),
            AddrItem::Me => write_pieces(out, &[Piece::Text(b"me")]),
            AddrItem::Net(prefix) => write_prefix(out, *prefix),
            AddrItem::Net6(prefix) => write_prefix6(out, *prefix),
            AddrItem::InTable(name) => {
                let name = Piece::Text(name.bytes());
                write_pieces(out, &[Piece::Text(b"table("), name, Piece::Text(b")")])
            }
            AddrItem::TableValue(name, value) => {
                let name = Piece::Text(name.bytes());
                let value = Piece::Number(*value);
                let (start, comma, end) = (b"table(", b",", b")");
                write_pieces(
                    out,
                    &[
                        Piece::Text(start),
                        name,
                        Piece::Text(comma),
                        value,
                        Piece::Text(end),
                    ],
                )
            }
        }
    }
}

impl Element for PortRange {
    ghost text = { range_text };

    #[tactic(auto, unfolding(crate::specs::Canonical::range_text))]
    fn write<K: Sink>(&self, out: &mut K) -> Result<(), Failed> {
        let low = Piece::Number(u32::from(self.low()));
        let high = Piece::Number(u32::from(self.high()));
        if self.low() == self.high() {
            write_pieces(out, &[low])
        } else {
            write_pieces(out, &[low, Piece::Text(b"-"), high])
        }
    }
}

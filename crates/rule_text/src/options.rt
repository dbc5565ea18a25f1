ghost use Rattle.std.specs.Prelude.{◌≡◌, ◌==◌, ◌<◌, ◌≤◌, ◌++◌, ℕ, List, Bool, [], map, length, codes, if◌then◌else◌};
ghost use Rattle.std.specs.List.{join_with_byte, flat_map};
ghost use Rattle.std.specs.Option.{option_copied};
ghost use Rattle.fw_base.specs.Texts.{WritesText};
ghost use Rattle.fw_rule.specs.Bits.{has_bit};
ghost use Rattle.rule_text.specs.Canonical as text;
ghost use Rattle.rule_text.specs.Canonical.{spaced_text};
ghost use Rattle.fw_rule.specs.TypeSet.{has_type};

use crate::flow_name::write_flow_name;
use crate::writing::{Piece, write_pieces};
use fw_base::{Failed, Sink, write_text};
use fw_rule::{
    FLAG_NAMES, Field, Iface, LimitMask, OPTION_NAMES, Opt, StateOpt, Test, TypeSet, has_bit,
};

fn sign_of(is_set: bool, is_clear: bool) -> Option<&'static [u8]>
    ensures { option_copied result ≡ text.sign_of is_set is_clear }
{
    if is_set {
        Some(b"")
    } else if is_clear {
        Some(b"!")
    } else {
        None
    }
}

/// Writes the word, and behind it the names of the bits of two masks.
fn write_signed_names<'x, K: Sink>(
    out: &mut K,
    word: &'x [u8],
    names: &'x [&'x [u8]],
    set: u8,
    clear: u8,
) -> Result<(), Failed>
    requires { length names.now ≤ 8 }
    ensures { WritesText (K.state out.old) (K.state out.new)
        (word.now
        ++ join_with_byte 44 (text.signed_names (map (λ name. name.now) names.now) 0 set clear))
        result }
{
    write_text(out, word)?;
    let mut before: &[u8] = b"";
    for (bit, name) in names.iter().enumerate() {
        let bit = bit as u32;
        let is_set = has_bit(u32::from(set), bit);
        let is_clear = has_bit(u32::from(clear), bit);
        if let Some(sign) = sign_of(is_set, is_clear) {
            write_pieces(
                out,
                &[Piece::Text(before), Piece::Text(sign), Piece::Text(name)],
            )?;
            before = b",";
        }
    }
    Ok(())
}

/// Writes the word, and behind it the numbers of the mask's bits.
fn write_bit_numbers<K: Sink>(out: &mut K, word: &[u8], mask: u32) -> Result<(), Failed>
    ensures { WritesText (K.state out.old) (K.state out.new)
        (word.now ++ join_with_byte 44 (text.numbers_where (has_bit mask) 32 0)) result }
{
    write_text(out, word)?;
    let mut before: &[u8] = b"";
    for bit in 0..32 {
        if has_bit(mask, bit) {
            write_pieces(out, &[Piece::Text(before), Piece::Number(bit)])?;
            before = b",";
        }
    }
    Ok(())
}

/// Writes the word, and behind it the types of the set.
fn write_type_numbers<K: Sink>(out: &mut K, word: &[u8], types: &TypeSet) -> Result<(), Failed>
    ensures { WritesText (K.state out.old) (K.state out.new)
        (word.now ++ join_with_byte 44 (text.numbers_where (has_type types.now) 256 0)) result }
{
    write_text(out, word)?;
    let mut before: &[u8] = b"";
    for number in 0..256 {
        if types.contains(number as u8) {
            write_pieces(out, &[Piece::Text(before), Piece::Number(number)])?;
            before = b",";
        }
    }
    Ok(())
}

/// Writes the word, and behind it the interfaces.
fn write_iface<'x, K: Sink>(out: &mut K, word: &'x [u8], iface: &'x Iface) -> Result<(), Failed>
    ensures { WritesText (K.state out.old) (K.state out.new)
        (word.now ++ text.iface_text iface.now) result }
{
    let word = Piece::Text(word);
    match iface {
        Iface::AnyIface => write_pieces(out, &[word, Piece::Text(b"any")]),
        Iface::Exact(name) => write_pieces(out, &[word, Piece::Text(name.bytes())]),
        Iface::Begins(name) => {
            write_pieces(out, &[word, Piece::Text(name.bytes()), Piece::Text(b"*")])
        }
    }
}

fn field_word(field: Field) -> &'static [u8]
    ensures { result.now ≡ text.field_word field }
{
    match field {
        Field::SrcIp => b"src-ip",
        Field::DstIp => b"dst-ip",
        Field::SrcPort => b"src-port",
        Field::DstPort => b"dst-port",
    }
}

fn mask_word(mask: LimitMask) -> &'static [u8]
    ensures { result.now ≡ text.mask_word mask }
{
    match mask {
        LimitMask::SrcAddr => b"src-addr",
        LimitMask::SrcPort => b"src-port",
        LimitMask::DstAddr => b"dst-addr",
        LimitMask::DstPort => b"dst-port",
    }
}

/// Writes a test, each word behind a space.
#[tactic(auto, unfolding(fw_rule::specs::Names::flag_names, fw_rule::specs::Names::option_names))]
fn write_test<K: Sink>(out: &mut K, test: &Test) -> Result<(), Failed>
    ensures { WritesText (K.state out.old) (K.state out.new)
        (spaced_text (text.test_words test.now)) result }
{
    match test {
        Test::Inward => write_text(out, b" in"),
        Test::Outward => write_text(out, b" out"),
        Test::Established => write_text(out, b" established"),
        Test::Setup => write_text(out, b" setup"),
        Test::Frag => write_text(out, b" frag"),
        Test::Recv(iface) => write_iface(out, b" recv ", iface),
        Test::Xmit(iface) => write_iface(out, b" xmit ", iface),
        Test::Via(iface) => write_iface(out, b" via ", iface),
        Test::TcpFlags { set, clear } => {
            write_signed_names(out, b" tcpflags ", &FLAG_NAMES, *set, *clear)
        }
        Test::IcmpTypes(types) => write_bit_numbers(out, b" icmptypes ", *types),
        Test::Icmp6Types(types) => write_type_numbers(out, b" icmp6types ", types),
        Test::IpOptions { present, absent } => {
            write_signed_names(out, b" ipoptions ", &OPTION_NAMES, *present, *absent)
        }
        Test::Lookup(field, table) => {
            let field = Piece::Text(field_word(*field));
            let table = Piece::Text(table.bytes());
            write_pieces(
                out,
                &[Piece::Text(b" lookup "), field, Piece::Text(b" "), table],
            )
        }
    }
}

fn option_start(negated: bool) -> &'static [u8]
    ensures { result.now ≡ (if negated then codes " not" else []) }
{
    if negated { b" not" } else { b"" }
}

/// Writes an option, each word behind a space.
fn write_option<K: Sink>(out: &mut K, option: &Opt) -> Result<(), Failed>
    ensures { WritesText (K.state out.old) (K.state out.new)
        (spaced_text (text.option_words option.now)) result }
{
    write_text(out, option_start(option.negated))?;
    write_test(out, &option.test)
}

/// Writes options, each word behind a space.
pub(crate) fn write_options<K: Sink>(out: &mut K, options: &[Opt]) -> Result<(), Failed>
    ensures { WritesText (K.state out.old) (K.state out.new)
        (spaced_text (flat_map text.option_words options.now)) result }
{
    for option in options {
        write_option(out, option)?;
    }
    Ok(())
}

/// Writes `limit` with its mask and number, each word behind a space.
fn write_limit<K: Sink>(out: &mut K, mask: LimitMask, most: u16) -> Result<(), Failed>
    ensures { WritesText (K.state out.old) (K.state out.new)
        (spaced_text (text.limit_words mask most)) result }
{
    let mask = Piece::Text(mask_word(mask));
    let most = Piece::Number(u32::from(most));
    write_pieces(
        out,
        &[Piece::Text(b" limit "), mask, Piece::Text(b" "), most],
    )
}

/// Writes how states are made, each word behind a space.
fn write_state_option<K: Sink>(out: &mut K, state: &StateOpt) -> Result<(), Failed>
    ensures { WritesText (K.state out.old) (K.state out.new)
        (spaced_text (text.state_option_words state.now)) result }
{
    match state {
        StateOpt::Keep(name) => {
            write_text(out, b" keep-state")?;
            write_flow_name(out, name)
        }
        StateOpt::Limit(mask, most, name) => {
            write_limit(out, *mask, *most)?;
            write_flow_name(out, name)
        }
    }
}

/// Writes how states are made where they are, each word behind a space.
pub(crate) fn write_state<K: Sink>(out: &mut K, state: &Option<StateOpt>) -> Result<(), Failed>
    ensures { WritesText (K.state out.old) (K.state out.new)
        (spaced_text (text.state_words state.now)) result }
{
    match state {
        None => Ok(()),
        Some(state) => write_state_option(out, state),
    }
}

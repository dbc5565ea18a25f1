ghost use Rattle.std.specs.Prelude.{◌≡◌, ◌<◌, ◌++◌, length, slice_get, map, codes, Some};
ghost use Rattle.fw_base.specs.Texts.{WritesText};
ghost use Rattle.rule_text.specs.Canonical as text;
ghost use Rattle.rule_text.specs.Pieces.{piece_text};
ghost use Rattle.rule_text.specs.Canonical.{spaced_text, rule_text, rest_text};

use crate::flow_name::write_flow_name;
use crate::options::{write_options, write_state};
use crate::writing::{Piece, write_five_digits, write_list_words, write_piece, write_pieces};
use fw_base::{Failed, Name, Sink, write_text};
use fw_rule::{Action, AddrSpec, Body, Family, Opt, PortList, Rule, StateOpt, UNREACH_NAMES};
use std::error::Error;
use std::fmt;

/// A rule's text wasn't written whole: the sink failed.
#[derive(Clone, Copy, Debug, PartialEq, Eq)]
pub struct WriteFault;

impl fmt::Display for WriteFault {
    ghost output = { λ _. Some (codes "the text could not be written") };

    fn fmt<W: fmt::Write>(&self, f: &mut fmt::Formatter<W>) -> fmt::Result {
        f.write_str("the text could not be written")
    }
}

impl Error for WriteFault {}

fn name_at<'x>(names: &'x [&'x [u8]], place: usize) -> &'x [u8]
    requires { place < length names.now }
    ensures { slice_get (map (λ name. name.now) names.now) place ≡ Some result.now }
{
    names[place]
}

/// A code of `unreach`, by name where it has one.
fn unreach_piece(code: u8) -> Piece<'static>
    ensures { piece_text result ≡ text.code_word code }
{
    let place = usize::from(code);
    if place < UNREACH_NAMES.len() {
        Piece::Text(name_at(&UNREACH_NAMES, place))
    } else {
        Piece::Number(u32::from(code))
    }
}

/// Writes `check-state` and which flows it looks up, each word behind a space.
fn write_check_state<K: Sink>(out: &mut K, name: &Option<Name>) -> Result<(), Failed>
    ensures { WritesText (K.state out.old) (K.state out.new)
        (spaced_text (text.check_state_words name.now)) result }
{
    write_text(out, b" check-state")?;
    match name {
        None => write_text(out, b" :any"),
        Some(name) => write_flow_name(out, name),
    }
}

/// Writes an action, each word behind a space.
fn write_action<K: Sink>(out: &mut K, action: &Action) -> Result<(), Failed>
    ensures { WritesText (K.state out.old) (K.state out.new)
        (spaced_text (text.action_words action.now)) result }
{
    match action {
        Action::Allow => write_text(out, b" allow"),
        Action::Deny => write_text(out, b" deny"),
        Action::Reset => write_text(out, b" reset"),
        Action::Unreach(code) => {
            write_pieces(out, &[Piece::Text(b" unreach "), unreach_piece(*code)])
        }
        Action::Count => write_text(out, b" count"),
        Action::SkipTo(number) => {
            let number = Piece::Number(u32::from(*number));
            write_pieces(out, &[Piece::Text(b" skipto "), number])
        }
        Action::Call(number) => {
            let number = Piece::Number(u32::from(*number));
            write_pieces(out, &[Piece::Text(b" call "), number])
        }
        Action::Return => write_text(out, b" return"),
        Action::CheckState(name) => write_check_state(out, name),
    }
}

/// Writes the set where it isn't 0.
fn write_set<K: Sink>(out: &mut K, set: u8) -> Result<(), Failed>
    ensures { WritesText (K.state out.old) (K.state out.new)
        (spaced_text (text.set_words set)) result }
{
    if set == 0 {
        Ok(())
    } else {
        write_pieces(out, &[Piece::Text(b" set "), Piece::Number(u32::from(set))])
    }
}

/// Writes `log` and its amount where it isn't 0.
fn write_amount<K: Sink>(out: &mut K, amount: u32) -> Result<(), Failed>
    ensures { WritesText (K.state out.old) (K.state out.new)
        (spaced_text (text.amount_words amount)) result }
{
    if amount == 0 {
        write_text(out, b" log")
    } else {
        write_pieces(
            out,
            &[Piece::Text(b" log logamount "), Piece::Number(amount)],
        )
    }
}

fn write_log<K: Sink>(out: &mut K, log: Option<u32>) -> Result<(), Failed>
    ensures { WritesText (K.state out.old) (K.state out.new)
        (spaced_text (text.log_words log)) result }
{
    match log {
        None => Ok(()),
        Some(amount) => write_amount(out, amount),
    }
}

/// Writes a protocol behind a space, by name where it has one. Where the sink fails, a front of that was
/// written.
#[tactic(auto, unfolding(crate::specs::Canonical::protocol_word))]
pub fn write_protocol<K: Sink>(out: &mut K, protocol: u8) -> Result<(), Failed>
    ensures { WritesText (K.state out.old) (K.state out.new)
        (spaced_text (text.one_word (text.protocol_word protocol))) result }
{
    match protocol {
        0 => write_text(out, b" ip"),
        1 => write_text(out, b" icmp"),
        6 => write_text(out, b" tcp"),
        17 => write_text(out, b" udp"),
        _ => write_pieces(
            out,
            &[Piece::Text(b" "), Piece::Number(u32::from(protocol))],
        ),
    }
}

/// Writes the version of IP or the protocol behind a space.
fn write_family<K: Sink>(out: &mut K, family: Family, protocol: u8) -> Result<(), Failed>
    ensures { WritesText (K.state out.old) (K.state out.new)
        (spaced_text (text.one_word (text.family_word family protocol))) result }
{
    match family {
        Family::AnyIp => write_protocol(out, protocol),
        Family::Four => write_text(out, b" ip4"),
        Family::Six => write_text(out, b" ip6"),
    }
}

fn write_ports<K: Sink>(out: &mut K, ports: &Option<PortList>) -> Result<(), Failed>
    ensures { WritesText (K.state out.old) (K.state out.new)
        (spaced_text (text.port_words ports.now)) result }
{
    match ports {
        None => Ok(()),
        Some(ports) => write_list_words(out, ports.negated, ports.ranges.as_slice()),
    }
}

fn write_addresses<K: Sink>(out: &mut K, addresses: &AddrSpec) -> Result<(), Failed>
    ensures { WritesText (K.state out.old) (K.state out.new)
        (spaced_text (text.addr_words addresses.now)) result }
{
    write_list_words(out, addresses.negated, addresses.items.as_slice())
}

/// Writes the word and one end of the packets' way: addresses and ports.
fn write_end<K: Sink>(
    out: &mut K,
    word: &[u8],
    addresses: &AddrSpec,
    ports: &Option<PortList>,
) -> Result<(), Failed>
    ensures { WritesText (K.state out.old) (K.state out.new)
        (word.now ++ spaced_text (text.addr_words addresses.now ++ text.port_words ports.now)) result }
{
    write_text(out, word)?;
    write_addresses(out, addresses)?;
    write_ports(out, ports)
}

/// Writes the options with the state in its place among them, each word behind a space.
fn write_placed<K: Sink>(
    out: &mut K,
    options: &[Opt],
    state: &Option<StateOpt>,
    state_at: usize,
) -> Result<(), Failed>
    ensures { WritesText (K.state out.old) (K.state out.new)
        (spaced_text (text.placed_words options.now state.now state_at)) result }
{
    let (before, behind) = options.split_at(state_at.min(options.len()));
    write_options(out, before)?;
    write_state(out, state)?;
    write_options(out, behind)
}

fn write_body_options<K: Sink>(out: &mut K, body: &Body) -> Result<(), Failed>
    ensures { WritesText (K.state out.old) (K.state out.new)
        (spaced_text (text.options_words body.now)) result }
{
    write_placed(out, body.options.as_slice(), &body.state, body.state_at)
}

fn write_body<K: Sink>(out: &mut K, body: &Body) -> Result<(), Failed>
    ensures { WritesText (K.state out.old) (K.state out.new)
        (spaced_text (text.body_words body.now)) result }
{
    write_family(out, body.family, body.protocol)?;
    write_end(out, b" from", &body.source, &body.source_ports)?;
    write_end(out, b" to", &body.destination, &body.destination_ports)?;
    write_body_options(out, body)
}

fn write_optional_body<K: Sink>(out: &mut K, body: &Option<Body>) -> Result<(), Failed>
    ensures { WritesText (K.state out.old) (K.state out.new)
        (spaced_text (text.optional_body body.now)) result }
{
    match body {
        None => Ok(()),
        Some(body) => write_body(out, body),
    }
}

fn write_words<K: Sink>(out: &mut K, rule: &Rule) -> Result<(), Failed>
    ensures { WritesText (K.state out.old) (K.state out.new) (rest_text rule.now) result }
{
    write_set(out, rule.set)?;
    write_action(out, &rule.action)?;
    write_log(out, rule.log)?;
    write_optional_body(out, &rule.body)
}

fn write_whole<K: Sink>(out: &mut K, rule: &Rule) -> Result<(), Failed>
    ensures { WritesText (K.state out.old) (K.state out.new) (rule_text rule.now) result }
{
    write_five_digits(out, rule.number)?;
    write_words(out, rule)
}

/// Writes the canonical text of a rule, without a line's end. It takes no memory. Where the sink
/// fails, a front of the text was written.
pub fn write_rule<K: Sink>(rule: &Rule, out: &mut K) -> Result<(), WriteFault>
    ensures { WritesText (K.state out.old) (K.state out.new) (rule_text rule.now) result }
{
    write_whole(out, rule).map_err(|_| WriteFault)
}

/// Writes the canonical text of a rule but for its number: what stands behind it, with the space
/// before it. It takes no memory. Where the sink fails, a front of that was written.
pub fn write_rule_rest<K: Sink>(rule: &Rule, out: &mut K) -> Result<(), WriteFault>
    ensures { WritesText (K.state out.old) (K.state out.new) (rest_text rule.now) result }
{
    write_words(out, rule).map_err(|_| WriteFault)
}

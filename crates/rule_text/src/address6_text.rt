ghost use Rattle.std.specs.Prelude.{◌≡◌, ◌≤◌, ◌<◌, ◌+◌, ◌-◌, ◌%◌, ◌/◌, ◌^◌, ◌==◌, suc, nat_le, if◌then◌else◌, length};
ghost use Rattle.fw_base.specs.Texts.{WritesText};
ghost use Rattle.rule_text.specs.Address6Text as text;
ghost use Rattle.rule_text.specs.ZeroRuns.{FirstLongestRunsAreFound};

use crate::digits::{MOST_HEX_DIGITS, put_hex_digits};
use crate::writing::{Element, Piece, write_joined, write_pieces};
use fw_base::{Addr6, Failed, Prefix6, Sink, write_text};

/// How many groups of sixteen bits an address has.
const GROUPS: usize = 8;

/// A run of zero groups.
#[derive(Clone, Copy)]
struct Run {
    place: usize,
    count: usize,
}

impl Element for u16 {
    ghost text = { text.hexadecimal };

    fn write<K: Sink>(&self, out: &mut K) -> Result<(), Failed> {
        let mut buffer = [0; MOST_HEX_DIGITS];
        let start = put_hex_digits(*self, &mut buffer);
        write_text(out, &buffer[start..])
    }
}

/// The sixteen bits of an address that have `behind` bits behind them.
fn group(address: u128, behind: u32) -> u16
    requires { behind < 128 }
    ensures { result ≡ address / 2 ^ behind % 2 ^ 16 }
{
    ((address >> behind) % 65_536) as u16
}

#[tactic(auto, unfolding(crate::specs::Address6Text::groups_of))]
fn groups(address: u128) -> [u16; GROUPS]
    ensures { result ≡ text.groups_of address }
{
    [
        group(address, 112),
        group(address, 96),
        group(address, 80),
        group(address, 64),
        group(address, 48),
        group(address, 32),
        group(address, 16),
        group(address, 0),
    ]
}

/// How many zero groups stand at the front: of a group, and of those behind it so many.
fn zeros_with(group: u16, behind: usize) -> usize
    requires { behind < 2 ^ 64 - 1 }
    ensures { result ≡ (if group == 0 then suc behind else 0) }
{
    if group == 0 { behind + 1 } else { 0 }
}

/// The longer of two runs, the first of equal ones.
fn longer(first: Run, second: Run) -> Run
    ensures { result ≡ (if nat_le second.count first.count then first else second) }
{
    if second.count <= first.count {
        first
    } else {
        second
    }
}

/// The longest run of zero groups, the first of equal ones.
fn longest_run(groups: &[u16]) -> Run
    ensures count { result.count ≡ text.longest_run groups.now }
    ensures place { result.place ≡ text.place_of_run result.count groups.now }
    ensures within { result.place + result.count ≤ length groups.now }
{
    let mut place = groups.len();
    let mut longest = Run { place, count: 0 };
    let mut zeros = 0;
    while place > 0 {
        place -= 1;
        zeros = zeros_with(groups[place], zeros);
        let run = Run {
            place,
            count: zeros,
        };
        longest = longer(run, longest);
    }
    longest
}

/// Writes the groups with `::` in the run's place.
fn write_shortened<K: Sink>(out: &mut K, groups: &[u16], run: Run) -> Result<(), Failed>
    requires { run.place + run.count ≤ length groups.now }
    ensures { WritesText (K.state out.old) (K.state out.new)
        (text.shortened_text groups.now run.place run.count) result }
{
    write_joined(out, b':', &groups[..run.place])?;
    write_text(out, b"::")?;
    write_joined(out, b':', &groups[run.place + run.count..])
}

fn write_groups<K: Sink>(out: &mut K, groups: &[u16]) -> Result<(), Failed>
    ensures { WritesText (K.state out.old) (K.state out.new) (text.groups_text groups.now) result }
{
    let run = longest_run(groups);
    if run.count < 2 {
        write_joined(out, b':', groups)
    } else {
        write_shortened(out, groups, run)
    }
}

/// Writes an IPv6 address: eight groups of four hexadecimal digits in lower case, without leading
/// zeros, and the longest run of two or more zero groups, the first of equal ones, as `::` (RFC 5952
/// section 4). Where the sink fails, a front of that was written.
pub fn write_address6<K: Sink>(out: &mut K, address: Addr6) -> Result<(), Failed>
    ensures { WritesText (K.state out.old) (K.state out.new) (text.address6_text address.0) result }
{
    write_groups(out, &groups(address.0))
}

/// Writes an IPv6 prefix, one of 128 without its length.
pub(crate) fn write_prefix6<K: Sink>(out: &mut K, prefix: Prefix6) -> Result<(), Failed>
    ensures { WritesText (K.state out.old) (K.state out.new) (text.network6_text prefix) result }
{
    write_address6(out, prefix.address())?;
    let bits = prefix.length();
    if bits == 128 {
        return Ok(());
    }
    write_pieces(out, &[Piece::Text(b"/"), Piece::Number(u32::from(bits))])
}

/// The run of zero groups that the text of an IPv6 address shortens is the longest, the first of equal
/// ones (RFC 5952 section 4.2.3).
pub fn first_longest_runs_are_found()
    ensures { FirstLongestRunsAreFound }
{}

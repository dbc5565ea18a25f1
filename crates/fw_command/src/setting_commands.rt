ghost use Rattle.std.specs.Prelude.{◌≡◌, ◌≤◌, IfOk, nat_eq, codes, length};
ghost use Rattle.std.specs.Bool.{OnTrue};
ghost use Rattle.std.specs.List.{starts_with};
ghost use Rattle.ipfw_parser.specs.Reading.{ReadsAs};
ghost use Rattle.ipfw_parser.specs.Views.{view, list_of};
ghost use Rattle.fw_command.specs.SettingCommands as spec;

use crate::ends::finished;
use fw_rule::{Command, LONGEST_LIFETIME, MOST_STATES, Setting};
use ipfw_parser::{Kind, ParseFault, Word, Words, cut_at, number};

/// The setting of that name.
#[tactic(auto, unfolding(crate::specs::SettingCommands::setting))]
fn setting(name: Word<'_>) -> Option<Setting>
    ensures { result ≡ spec.setting name.entry.text.now }
{
    if name.is(b"dyn_ack_lifetime") {
        Some(Setting::Ack)
    } else if name.is(b"dyn_syn_lifetime") {
        Some(Setting::Syn)
    } else if name.is(b"dyn_fin_lifetime") {
        Some(Setting::Fin)
    } else if name.is(b"dyn_rst_lifetime") {
        Some(Setting::Rst)
    } else if name.is(b"dyn_udp_lifetime") {
        Some(Setting::Udp)
    } else if name.is(b"dyn_short_lifetime") {
        Some(Setting::Short)
    } else if name.is(b"dyn_max") {
        Some(Setting::Max)
    } else if name.is(b"dyn_keep_states") {
        Some(Setting::Keep)
    } else {
        None
    }
}

/// The setting's least value.
fn least(setting: Setting) -> u64
    ensures { result ≡ spec.least setting }
{
    match setting {
        Setting::Ack
        | Setting::Syn
        | Setting::Fin
        | Setting::Rst
        | Setting::Udp
        | Setting::Short
        | Setting::Max => 1,
        Setting::Keep => 0,
    }
}

/// The setting's greatest value.
fn most(setting: Setting) -> u64
    ensures { result ≡ spec.most setting }
{
    match setting {
        Setting::Ack | Setting::Syn | Setting::Fin | Setting::Rst | Setting::Udp | Setting::Short =>
            u64::from(LONGEST_LIFETIME),
        Setting::Max => u64::from(MOST_STATES),
        Setting::Keep => 1,
    }
}

fn has_prefix(text: &[u8]) -> bool
    ensures value { result ≡ starts_with nat_eq text.now (codes "net.inet.ip.fw.") }
    ensures long { OnTrue result (15 ≤ length text.now) }
{
    text.starts_with(b"net.inet.ip.fw.")
}

/// The text without the name that the settings have in common, where it stands in front.
#[tactic(auto, unfolding(crate::specs::SettingCommands::without_prefix))]
fn without_prefix(text: &[u8]) -> &[u8]
    ensures { result.now ≡ spec.without_prefix text.now }
{
    if has_prefix(text) { &text[15..] } else { text }
}

/// A setting and its value, from NAME=VALUE.
#[tactic(auto, unfolding(crate::specs::SettingCommands::assignment))]
fn assignment(word: Word<'_>) -> Result<(Setting, u32), ParseFault>
    ensures { ReadsAs (λ r. r) result (spec.assignment (view word.entry)) }
{
    let (text, value) = cut_at(without_prefix(word.text), b'=');
    let name = Word {
        column: word.column,
        text,
    };
    match (setting(name), value) {
        (Some(which), Some(text)) => {
            let value = Word {
                column: word.column,
                text,
            };
            Ok((which, number(value, least(which), most(which))? as u32))
        }
        _ => Err(word.fault(Kind::UnknownWord)),
    }
}

/// A change of a setting, by the words behind `sysctl`.
#[tactic(auto, unfolding(crate::specs::SettingCommands::sysctl))]
pub(crate) fn sysctl(end: u32, words: Words<'_>) -> Result<Command, ParseFault>
    ensures { ReadsAs (λ c. c) result (spec.sysctl end (list_of words.entry)) }
{
    let (next, words) = words.first(end)?;
    let (setting, value) = assignment(next)?;
    finished(Command::Sysctl { setting, value }, words)
}

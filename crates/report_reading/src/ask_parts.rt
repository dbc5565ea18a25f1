ghost use Rattle.std.specs.Prelude.{◌≡◌, ◌≤◌, IfSome};
ghost use Rattle.std.specs.Option.{option_map};
ghost use Rattle.report_reading.specs.AskParts as spec;

use crate::parts::{behind, is_word, number, positive};
use crate::record_lines::{count, named_code};
use fw_rule::LimitMask;
use state_asks::{Reply, RuleRef, Way};

/// What a line asks, before its flow is read.
#[derive(Clone, Copy)]
pub(crate) enum Question {
    Lookup,
    /// By the rule of this identity, limited or not.
    Install(u32, Option<(LimitMask, u16)>),
}

/// The part of a flow that a limit counts by, and the space behind it.
#[tactic(auto, unfolding(crate::specs::AskParts::mask_at))]
fn mask(text: &[u8]) -> Option<(LimitMask, &[u8])>
    ensures { option_map (λ found. (found.0, found.1.now)) result ≡ spec.mask_at text.now }
{
    if let Some(rest) = behind(b"src-addr ", text) {
        Some((LimitMask::SrcAddr, rest))
    } else if let Some(rest) = behind(b"src-port ", text) {
        Some((LimitMask::SrcPort, rest))
    } else if let Some(rest) = behind(b"dst-addr ", text) {
        Some((LimitMask::DstAddr, rest))
    } else {
        Some((LimitMask::DstPort, behind(b"dst-port ", text)?))
    }
}

/// A limit's mask and number, as far as the name.
#[tactic(auto, unfolding(crate::specs::AskParts::counted_limit_at))]
fn counted_limit(text: &[u8]) -> Option<(Option<(LimitMask, u16)>, &[u8])>
    ensures { option_map (λ found. (found.0, found.1.now)) result ≡ spec.counted_limit_at text.now }
{
    let (mask, rest) = mask(text)?;
    let (most, rest) = positive(rest, 65535)?;
    let rest = behind(b" :", rest)?;
    Some((Some((mask, most as u16)), rest))
}

/// Whether and by what a state is limited, as far as the name.
#[tactic(auto, unfolding(crate::specs::AskParts::limit_at))]
fn limit(text: &[u8]) -> Option<(Option<(LimitMask, u16)>, &[u8])>
    ensures { option_map (λ found. (found.0, found.1.now)) result ≡ spec.limit_at text.now }
{
    if let Some(rest) = behind(b" keep :", text) {
        Some((None, rest))
    } else {
        counted_limit(behind(b" limit ", text)?)
    }
}

/// An install, as far as the name.
#[tactic(auto, unfolding(crate::specs::AskParts::install_at))]
fn install(text: &[u8]) -> Option<(Question, &[u8])>
    ensures { option_map (λ found. (found.0, found.1.now)) result ≡ spec.install_at text.now }
{
    let (id, rest) = number(text, u64::from(u32::MAX))?;
    let (limit, rest) = limit(rest)?;
    Some((Question::Install(id as u32, limit), rest))
}

/// What is asked, as far as the name.
#[tactic(auto, unfolding(crate::specs::AskParts::question_at))]
pub(crate) fn asked_question(text: &[u8]) -> Option<(Question, &[u8])>
    ensures { option_map (λ found. (found.0, found.1.now)) result ≡ spec.question_at text.now }
{
    if let Some(rest) = behind(b" lookup :", text) {
        Some((Question::Lookup, rest))
    } else {
        install(behind(b" install ", text)?)
    }
}

/// The words of FIN 1, SYN 2 and RST 4, of which each may be set (RFC 9293 section 3.1).
const FLAG_WORDS: [&[u8]; 8] = [b"-", b"F", b"S", b"FS", b"R", b"FR", b"SR", b"FSR"];

/// The flags between their spaces.
#[tactic(auto, unfolding(crate::specs::AskParts::flags_at, crate::specs::AskParts::flag_words))]
pub(crate) fn flags(text: &[u8]) -> Option<(u8, &[u8])>
    ensures { option_map (λ found. (found.0, found.1.now)) result ≡ spec.flags_at text.now }
{
    named_code(&FLAG_WORDS, behind(b" ", text)?)
}

/// In which direction a state was found, to the line's end.
#[tactic(auto, unfolding(crate::specs::AskParts::way_in))]
fn way(id: u32, text: &[u8]) -> Option<Reply>
    ensures { result ≡ spec.way_in id text.now }
{
    let rule = RuleRef { id, number: 0 };
    if is_word(text, b" forward\n") {
        Some(Reply::Found(Way::Forward, rule))
    } else if is_word(text, b" reverse\n") {
        Some(Reply::Found(Way::Reverse, rule))
    } else {
        None
    }
}

/// That a state was found, to the line's end.
#[tactic(auto, unfolding(crate::specs::AskParts::found_in))]
fn found(text: &[u8]) -> Option<Reply>
    ensures { result ≡ spec.found_in text.now }
{
    let (id, rest) = number(behind(b"found ", text)?, u64::from(u32::MAX))?;
    way(id as u32, rest)
}

/// A reply with a count of states, to the line's end.
#[tactic(auto, unfolding(crate::specs::AskParts::counted_reply_in))]
fn counted_reply(text: &[u8]) -> Option<Reply>
    ensures { result ≡ spec.counted_reply_in text.now }
{
    if let Some(states) = count(b"limit ", text) {
        Some(Reply::LimitReached(states))
    } else {
        Some(Reply::TableFull(count(b"full ", text)?))
    }
}

/// What was answered, to the line's end.
#[tactic(auto, unfolding(crate::specs::AskParts::reply_in))]
pub(crate) fn reply(text: &[u8]) -> Option<Reply>
    ensures { result ≡ spec.reply_in text.now }
{
    if is_word(text, b"notfound\n") {
        Some(Reply::NotFound)
    } else if is_word(text, b"created\n") {
        Some(Reply::Created)
    } else if is_word(text, b"exists\n") {
        Some(Reply::Exists)
    } else if let Some(reply) = found(text) {
        Some(reply)
    } else {
        counted_reply(text)
    }
}

ghost use Rattle.std.specs.Prelude.{◌≡◌, ◌<◌, IfOk, count_by, length, sum_by};
ghost use Rattle.report_page.specs.Bins as spec;

use fw_base::OutOfMemory;
use std::alloc::Global;

/// What happened to a record, as a strip shows it.
#[derive(Clone, Copy)]
pub enum Shade {
    Allow,
    Deny,
    /// It was dropped, and a reset or an unreachable message is due.
    Answered,
    /// It wasn't judged: no IP, or a header that can't be read.
    Unread,
}

/// How many records of each shade there are.
#[derive(Clone, Copy)]
pub struct Bin {
    pub allow: usize,
    pub deny: usize,
    pub answered: usize,
    pub unread: usize,
}

fn is_allow(shade: &Shade) -> bool
    ensures { result ≡ spec.is_allow shade.now }
{
    match shade {
        Shade::Allow => true,
        Shade::Deny | Shade::Answered | Shade::Unread => false,
    }
}

fn is_deny(shade: &Shade) -> bool
    ensures { result ≡ spec.is_deny shade.now }
{
    match shade {
        Shade::Deny => true,
        Shade::Allow | Shade::Answered | Shade::Unread => false,
    }
}

fn is_answered(shade: &Shade) -> bool
    ensures { result ≡ spec.is_answered shade.now }
{
    match shade {
        Shade::Answered => true,
        Shade::Allow | Shade::Deny | Shade::Unread => false,
    }
}

fn is_unread(shade: &Shade) -> bool
    ensures { result ≡ spec.is_unread shade.now }
{
    match shade {
        Shade::Unread => true,
        Shade::Allow | Shade::Deny | Shade::Answered => false,
    }
}

/// How many records were let through.
fn count_allow(shades: &[Shade]) -> usize
    ensures { result ≡ count_by spec.is_allow shades.now }
{
    shades.iter().filter(|shade| is_allow(shade)).count()
}

/// How many records were dropped without an answer.
fn count_deny(shades: &[Shade]) -> usize
    ensures { result ≡ count_by spec.is_deny shades.now }
{
    shades.iter().filter(|shade| is_deny(shade)).count()
}

/// How many records were dropped with an answer.
fn count_answered(shades: &[Shade]) -> usize
    ensures { result ≡ count_by spec.is_answered shades.now }
{
    shades.iter().filter(|shade| is_answered(shade)).count()
}

/// How many records weren't judged.
fn count_unread(shades: &[Shade]) -> usize
    ensures { result ≡ count_by spec.is_unread shades.now }
{
    shades.iter().filter(|shade| is_unread(shade)).count()
}

/// How many records of each shade there are.
fn bin_of(shades: &[Shade]) -> Bin
    ensures { result ≡ spec.bin_of shades.now }
{
    Bin {
        allow: count_allow(shades),
        deny: count_deny(shades),
        answered: count_answered(shades),
        unread: count_unread(shades),
    }
}

/// The bins of so many records each, the last one of what is left. No record is missed and none
/// counted twice.
pub fn bins_of(alloc: Global, shades: &[Shade], size: usize) -> Result<Vec<Bin>, OutOfMemory>
    requires { 0 < size }
    ensures cut { IfOk result (λ bins. spec.IsCut size shades.now bins.items) }
    ensures all { IfOk result (λ bins. sum_by spec.bin_total bins.items ≡ length shades.now) }
{
    let mut bins = Vec::new(alloc);
    let mut rest = shades;
    while !rest.is_empty() {
        let (bin, others) = rest.split_at(size.min(rest.len()));
        bins.push(bin_of(bin))?;
        rest = others;
    }
    Ok(bins)
}

ghost use Rattle.std.specs.Prelude.{◌≡◌, ℕ, ◌+◌, ◌<◌, ◌^◌, None, Some, IfOk, IfSome, OnOk, length, sum_by, if◌then◌else◌};
ghost use Rattle.std.specs.List.{zip};
ghost use Rattle.std.specs.HashMap.{get, values};
ghost use Rattle.report_moves.specs.Spans as spec;

use fw_base::OutOfMemory;
use std::alloc::Global;
use std::collections::HashMap;

/// How many records came to an outcome, and which were the first and the last of them.
#[derive(Clone, Copy)]
pub struct Span {
    pub records: u64,
    /// The first one's number, from 1.
    pub first: u64,
    /// The last one's number.
    pub last: u64,
}

/// What there is behind one more record of this number.
pub fn one_more(span: Option<Span>, number: u64) -> Span
    requires { IfSome span (λ span. span.records < number) }
    ensures { result ≡ spec.one_more span number }
{
    match span {
        None => Span {
            records: 1,
            first: number,
            last: number,
        },
        Some(span) => Span {
            records: span.records + 1,
            first: span.first,
            last: number,
        },
    }
}

/// The span of a pair, if it has one.
fn span_at(spans: &HashMap<(u32, u32), Span>, pair: (u32, u32)) -> Option<Span>
    ensures { result ≡ get spec.pair_eq spans.now pair }
{
    spans.get(&pair).copied()
}

/// Counts the record of this number under its pair.
fn count_record(
    spans: &mut HashMap<(u32, u32), Span>,
    pair: (u32, u32),
    number: u64,
) -> Result<(), OutOfMemory>
    requires { IfSome (get spec.pair_eq spans.old pair) (λ span. span.records < number) }
    ensures counted { OnOk result (spec.CountsRecord spans.old spans.new pair number) }
{
    let span = one_more(span_at(spans, pair), number);
    spans.insert(pair, span)?;
    Ok(())
}

/// For each pair of an outcome then and an outcome now: how many records came to it, the first and
/// the last.
pub fn spans_of(
    alloc: Global,
    old: &[u32],
    new: &[u32],
) -> Result<HashMap<(u32, u32), Span>, OutOfMemory>
    requires { length old.now ≡ length new.now }
    ensures spans { IfOk result (λ spans. (pair : ℕ × ℕ)
        → get spec.pair_eq spans pair ≡ spec.span_of (spec.pair_eq pair) (zip old.now new.now)) }
    ensures all { IfOk result (λ spans. sum_by (λ span. span.records) (values spans)
        ≡ length old.now) }
{
    let mut spans = HashMap::new(alloc);
    for (at, outcome) in old.iter().enumerate() {
        count_record(&mut spans, (*outcome, new[at]), at as u64 + 1)?;
    }
    Ok(spans)
}

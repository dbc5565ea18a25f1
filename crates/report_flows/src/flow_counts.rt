ghost use Rattle.std.specs.Prelude.{◌≡◌, ◌<◌, [], All, IfOk, IfSome, OnOk, Some, map};
ghost use Rattle.std.specs.HashMap.{get, IsUnique};
ghost use Rattle.std.specs.Map.{lookup};
ghost use Rattle.report_flows.specs.Counting as spec;
ghost use Rattle.report_flows.specs.Flows.{same_flow};

use crate::AnyFlow;
use fw_base::OutOfMemory;
use report_moves::{Span, one_more};
use std::alloc::Global;
use std::cmp::Reverse;
use std::collections::HashMap;
use std::marker::Model;

/// A flow among records, and how many have it, the first and the last of them.
#[derive(Clone, Copy)]
pub struct FlowSpan {
    /// `None` stands for the records that have no flow.
    pub flow: Option<AnyFlow>,
    pub span: Span,
}

/// How often each flow was met, where first and where last. Contracts see what was counted, in some order.
#[derive(Drop)]
pub(crate) struct FlowCounts {
    spans: HashMap<Option<AnyFlow>, Span>,
}

impl Model for FlowCounts {
    ghost use Rattle.report_flows.specs.Counting.{Entries};

    ghost Value = { Entries };

    ghost view = { λ c. c.spans.entries };
}

/// The span of a flow, if it has one.
fn span_at(spans: &HashMap<Option<AnyFlow>, Span>, flow: &Option<AnyFlow>) -> Option<Span>
    ensures { result ≡ get same_flow spans.now flow.now }
{
    spans.get(flow).copied()
}

/// What is told of an entry.
fn flow_span(flow: Option<AnyFlow>, span: Span) -> FlowSpan
    ensures { result ≡ spec.flow_span (flow, span) }
{
    FlowSpan { flow, span }
}

/// What was counted of each flow.
fn told_in(
    alloc: Global,
    spans: &HashMap<Option<AnyFlow>, Span>,
) -> Result<Vec<FlowSpan>, OutOfMemory>
    ensures entries { IfOk result (λ told. told.items ≡ map spec.flow_span spans.now.entries) }
    ensures found { All (λ entry. get same_flow spans.now entry.0 ≡ Some entry.1)
        spans.now.entries }
    ensures unique { IsUnique same_flow spans.now }
{
    let told = spans
        .iter()
        .map(|(flow, span)| flow_span(*flow, *span))
        .collect(alloc)?;
    Ok(told)
}

impl FlowCounts {
    /// No flow.
    pub(crate) fn new(alloc: Global) -> FlowCounts
        ensures { result ≡ [] }
    {
        FlowCounts {
            spans: HashMap::new(alloc),
        }
    }

    /// Counts the record of this number under its flow.
    pub(crate) fn count(&mut self, flow: Option<AnyFlow>, number: u64) -> Result<(), OutOfMemory>
        requires { IfSome (lookup (same_flow flow) self.old) (λ span. span.records < number) }
        ensures counted { OnOk result (spec.CountsFlow self.old self.new flow number) }
    {
        let span = one_more(span_at(&self.spans, &flow), number);
        self.spans.insert(flow, span)?;
        Ok(())
    }

    /// What was counted of each flow, the most records first, and of as many the first record.
    pub(crate) fn told(&self, alloc: Global) -> Result<Vec<FlowSpan>, OutOfMemory>
        ensures { IfOk result (λ told. spec.AreTold self.now told.items) }
    {
        let mut told = told_in(alloc, &self.spans)?;
        told.sort_by_key(|flow| (Reverse(flow.span.records), flow.span.first))?;
        Ok(told)
    }
}

use anyhow::{Result, bail};
use bench_asks::{host_of, lookup};
use counter_book::Tally;
use eval_engine::{Cause, Docket, DocketEntry, Judgement, Verdict};
use fw_base::OutOfMemory;
use fw_rule::Items;
use generation_store::Edition;
use report_texts::{CaptureEnd, Ends};
use rule_chain::Config;
use state_asks::{FlowName, RuleRef};
use state_journal::Book;
use std::alloc::Global;
use std::sync::Arc;

/// What a report tells: one edition without rules, and one capture.
#[derive(Drop)]
pub struct Run {
    pub editions: Vec<Arc<Edition>>,
    pub book: Book,
    pub dockets: Vec<Docket>,
    pub tallies: Vec<Tally>,
    pub ends: Ends,
}

/// Every third packet is denied by rule 65535; the others are allowed by a rule.
fn judgement(record: u32) -> Judgement {
    let (verdict, number) = if record % 3 == 0 {
        (Verdict::Deny, u16::MAX)
    } else {
        (Verdict::Allow, 200)
    };
    Judgement {
        edition: 1,
        verdict,
        rule: RuleRef { id: 0, number },
        cause: Cause::Rule,
    }
}

fn docket(alloc: Global, records: u32) -> Result<Docket, OutOfMemory> {
    let mut docket = Docket::new(alloc);
    for record in 0..records {
        docket.push(DocketEntry::judged(judgement(record)))?;
    }
    Ok(docket)
}

/// Enters an ask of the first lane, if there is one.
fn enter(book: &mut Book, record: u32) -> Result<(), OutOfMemory> {
    if 1 <= book.lanes() {
        book.ask(
            1,
            u64::from(record) + 1,
            &lookup(host_of(record), record, FlowName::Named(0)),
        )?;
    }
    Ok(())
}

/// A journal of so many asks, all of one lane.
fn book(alloc: Global, edition: &Edition, asks: u32) -> Result<Book> {
    let facts = edition.facts().share()?;
    if facts.number != 1 {
        bail!("the first edition has another number");
    }
    let mut book = Book::open(alloc, 1, facts)?;
    for record in 0..asks {
        enter(&mut book, record)?;
    }
    Ok(book)
}

/// The run of so many records, with so many asks in its journal.
pub fn run_of(alloc: Global, records: u32, asks: u32) -> Result<Run> {
    let edition = Edition::build(alloc, 1, Config::new(alloc)?)?;
    let book = book(alloc, &edition, asks)?;
    let end = CaptureEnd::Read {
        records: u64::from(records),
    };
    Ok(Run {
        editions: vec![in alloc; edition]?,
        book,
        dockets: vec![in alloc; docket(alloc, records)?]?,
        tallies: vec![in alloc; Tally::new(alloc)]?,
        ends: Ends {
            captures: Items::from_vec(vec![in alloc; end]?),
            answers: Items::from_vec(Vec::new(alloc)),
        },
    })
}

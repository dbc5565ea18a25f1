ghost use Rattle.std.specs.Prelude.{ℕ, ◌<◌, List, IsTrue};
ghost use Rattle.state_asks.specs.Flags.{HasKeptFlags};
ghost use Rattle.state_asks.specs.RuleLists.{has_id};
ghost use Rattle.state_journal.specs.Journal.{NamesRuleOf};

use fw_base::Addr;
use generation_store::Edition;
use packet_headers::Flow;
use state_asks::{FlowName, Op, RuleRef};
use state_journal::Book;
use std::alloc::Global;
use std::process::Abort;
use std::sync::Arc;
use std::test::Fail;

const FORTH: Flow = Flow {
    protocol: 6,
    source: Addr(0x0a00_0001),
    source_port: 1025,
    destination: Addr(0xc000_0201),
    destination_port: 80,
};

const BACK: Flow = Flow {
    protocol: 6,
    source: Addr(0xc000_0201),
    source_port: 80,
    destination: Addr(0x0a00_0001),
    destination_port: 1025,
};

fn lookup(flow: Flow, flags: u8, second: u32) -> Op
    ensures rule { (rules : List ℕ) → NamesRuleOf rules result }
    ensures flags { flags < 8 → HasKeptFlags result }
{
    Op::Lookup {
        flow,
        flags,
        second,
        name: FlowName::Named(0),
    }
}

fn install() -> Op
    ensures rule { (rules : List ℕ) → IsTrue (has_id rules 2) → NamesRuleOf rules result }
    ensures flags { HasKeptFlags result }
{
    Op::Install {
        flow: FORTH,
        flags: 2,
        second: 100,
        rule: RuleRef { id: 2, number: 200 },
        limit: None,
        name: 0,
    }
}

/// The lookup of record `at`, in second 99 and `at` more.
fn ask_lookup(
    rt: &impl Abort,
    book: &mut Book,
    at: u64,
    flow: Flow,
    flags: u8,
) -> Result<(), Fail> {
    assert!(rt; book.lanes() == 2);
    assert!(rt; at < 100 && flags < 8);
    book.ask(1, at, &lookup(flow, flags, at as u32 + 99))?;
    Ok(())
}

/// The asks of a connection that is opened and closed.
fn ask_all(rt: &impl Abort, book: &mut Book) -> Result<(), Fail> {
    ask_lookup(rt, book, 1, FORTH, 2)?;
    assert!(rt; book.lanes() == 2 && book.has_rule(2));
    book.ask(1, 1, &install())?;
    for (at, flow, flags) in [(2, BACK, 2), (3, FORTH, 1), (4, BACK, 1), (5, FORTH, 0)] {
        ask_lookup(rt, book, at, flow, flags)?;
    }
    Ok(())
}

/// The book of these editions for two lanes.
fn open_book(rt: &impl Abort, alloc: Global, editions: &[Arc<Edition>]) -> Result<Book, Fail> {
    assert!(rt; !editions.is_empty());
    let facts = editions[0].facts().share()?;
    assert!(rt; facts.number == 1);
    Ok(Book::open(alloc, 2, facts)?)
}

/// The book, with the connection's asks where they are wanted.
pub(super) fn book_of(
    rt: &impl Abort,
    alloc: Global,
    editions: &[Arc<Edition>],
    is_asked: bool,
) -> Result<Book, Fail> {
    let mut book = open_book(rt, alloc, editions)?;
    if is_asked {
        ask_all(rt, &mut book)?;
    }
    Ok(book)
}

ghost use Rattle.std.specs.Prelude.{◌≡◌, ℕ, List, IsTrue};
ghost use Rattle.state_asks.specs.Flags.{HasKeptFlags};
ghost use Rattle.state_asks.specs.RuleLists.{has_id};
ghost use Rattle.state_journal.specs.Journal.{NamesRuleOf};

use fw_base::{Addr, Kept};
use fw_rule::{Settings, USUAL_MOST_STATES};
use packet_headers::Flow;
use state_asks::{Facts, FlowName, Identities, Op, Reply, RuleRef, Way, is_ordered};
use state_journal::{Book, Entry};
use std::mem::size_of;
use std::process::Abort;
use std::test::Fail;

const RULE: RuleRef = RuleRef { id: 2, number: 200 };

fn datagram(port: u16) -> Flow {
    Flow {
        protocol: 17,
        source: Addr(0x0a00_0001),
        source_port: port,
        destination: Addr(0xc000_0201),
        destination_port: 6,
    }
}

fn lookup(second: u32) -> Op
    ensures rule { (rules : List ℕ) → NamesRuleOf rules result }
    ensures flags { HasKeptFlags result }
{
    Op::Lookup {
        flow: datagram(5),
        flags: 0,
        second,
        name: FlowName::Named(0),
    }
}

fn install(second: u32) -> Op
    ensures rule { (rules : List ℕ) → IsTrue (has_id rules 2) → NamesRuleOf rules result }
    ensures flags { HasKeptFlags result }
{
    Op::Install {
        flow: datagram(5),
        flags: 0,
        second,
        rule: RULE,
        limit: None,
        name: 0,
    }
}

fn facts(rt: &impl Abort, number: u64, rules: Identities) -> Facts
    ensures { result.number ≡ number }
{
    assert!(rt; is_ordered(rules.as_slice()));
    Facts {
        number,
        rules,
        settings: Settings {
            ack: 300,
            syn: 20,
            fin: 1,
            rst: 1,
            udp: 10,
            short: 5,
            max: USUAL_MOST_STATES,
            keep: false,
        },
    }
}

/// How a publication is made by whoever holds the book, whatever it is.
fn publish<B: Kept>(rt: &impl Abort, book: &mut B, number: u64, facts: B::Facts)
    requires { B.facts_number facts ≡ number }
{
    assert!(rt; book.is_ready());
    assert!(rt; book.current() < u64::MAX);
    assert_eq!(rt; book.current() + 1, number);
    book.publish(facts);
}

#[test]
fn publication_drops_states(rt: HostRuntime) -> Result<(), Fail> {
    let three = Identities::new(rt.alloc(), vec![in rt.alloc(); 0, 1, 2]?)?;
    let first = facts(&rt, 1, three);
    let mut book = Book::open(rt.alloc(), 2, first)?;
    assert_eq!(rt; book.lanes(), 2);
    assert!(rt; !book.is_ready());
    assert!(rt; book.has_rule(2));
    assert_eq!(rt; book.ask(1, 1, &lookup(100))?, Reply::NotFound);
    assert_eq!(rt; book.ask(1, 1, &install(100))?, Reply::Created);
    book.ready()?;
    let found = Reply::Found(Way::Forward, RULE);
    assert_eq!(rt; book.ask(2, 1, &lookup(101))?, found);
    assert_eq!(rt; book.states().count(), 1);
    let two = Identities::new(rt.alloc(), vec![in rt.alloc(); 0, 1]?)?;
    publish(&rt, &mut book, 2, facts(&rt, 2, two));
    assert!(rt; book.lanes() == 2);
    assert!(rt; !book.has_rule(2));
    assert_eq!(rt; book.ask(1, 2, &lookup(101))?, Reply::NotFound);
    assert_eq!(rt; book.states().clock(), 101);
    assert_eq!(rt; size_of::<Entry>(), 64);
    let ask = |lane, at, op, reply| Entry::Ask {
        lane,
        op,
        reply,
        at,
    };
    assert_eq!(rt;
        book.entries(),
        [
            Entry::Publish(1),
            ask(1, 1, lookup(100), Reply::NotFound),
            ask(1, 1, install(100), Reply::Created),
            ask(2, 1, lookup(101), found),
            Entry::Publish(2),
            ask(1, 2, lookup(101), Reply::NotFound),
        ]
        .as_slice()
    );
    Ok(())
}

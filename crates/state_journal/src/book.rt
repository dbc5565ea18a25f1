ghost use Rattle.std.specs.Prelude.{◌≡◌, ◌≢◌, ℕ, ◌≤◌, ◌+◌, ◌++◌, ◌∷◌, [], IfOk, OnOk, OnErr, true, length};
ghost use Rattle.state_journal.specs.Items.{items_of, last_facts};
ghost use Rattle.state_journal.specs.declared.entry.Item.TheVariants.{Published};
ghost use Rattle.state_journal.specs.Journal as journal;
ghost use Rattle.state_journal.specs.Journal.{IsJournal, first_journal, with_ask, with_publication, NamesRuleOf, IsFoundOf, last_rules};
ghost use Rattle.state_asks.specs.Flags.{HasKeptFlags};
ghost use Rattle.state_asks.specs.RuleLists.{has_id};
ghost use Rattle.dyn_states.specs.StateObject.{reply_of};

use crate::{Entry, Item};
use dyn_states::States;
use fw_base::{Kept, OutOfMemory};
use fw_rule::MOST_STATES;
use state_asks::{Facts, Op, Reply};
use std::alloc::Global;
use std::marker::Model;

/// The dynamic states with their journal. Its entries are all that the states ever met, in order: so each
/// answer can be told again from the entries before it.
#[derive(Drop)]
pub struct Book {
    lanes: u32,
    facts: Vec<Facts>,
    entries: Vec<Entry>,
    states: States,
    is_ready: bool,
}

impl Model for Book {
    ghost use Rattle.std.specs.Prelude.{◌≤◌, ◌<◌, ◌≡◌, true, vec_len, vec_capacity};
    ghost use Rattle.state_journal.specs.Journal.{Journal, IsJournal};

    ghost Value = { Journal };

    ghost view = { λ b. record {
      lanes = b.lanes;
      facts = b.facts.items;
      entries = b.entries.items;
      object = b.states.object;
      ready = b.is_ready;
    } };

    ghost invariant = { λ b.
        IsJournal (record {
          lanes = b.lanes;
          facts = b.facts.items;
          entries = b.entries.items;
          object = b.states.object;
          ready = b.is_ready;
        })
        × (65536 ≤ b.states.room)
        × (b.is_ready ≡ true → (vec_len b.facts < vec_capacity b.facts) × (vec_len b.entries < vec_capacity b.entries))
        × (b.lanes ≤ 64) };
}

impl Book {
    /// The book of so many lanes, 1 to 64, that begins with the publication of edition 1. The memory of
    /// the states is taken here.
    pub fn open(alloc: Global, lanes: u32, facts: Facts) -> Result<Book, OutOfMemory>
        requires number { facts.number ≡ 1 }
        requires lanes { (1 ≤ lanes) × (lanes ≤ 64) }
        ensures { IfOk result (λ book. book ≡ first_journal lanes facts) }
    {
        let states = open_states(alloc, &facts)?;
        let mut entries = Vec::new(alloc);
        entries.push(Entry::Publish(facts.number))?;
        let mut all = Vec::new(alloc);
        all.push(facts)?;
        Ok(Book {
            lanes,
            facts: all,
            entries,
            states,
            is_ready: false,
        })
    }

    /// How many lanes it has.
    pub fn lanes(&self) -> u32
        ensures { result ≡ self.now.lanes }
    {
        self.lanes
    }

    /// The facts of all publications, in order.
    pub fn facts(&self) -> &[Facts]
        ensures { result.now ≡ self.now.facts }
    {
        &self.facts
    }

    /// Whether a rule of this identity is one of the last publication.
    pub fn has_rule(&self, id: u32) -> bool
        ensures { result ≡ has_id (last_rules self.now.facts) id }
    {
        match self.facts.split_last() {
            Some((last, _)) => is_among(last.rules.as_slice(), id),
            None => false,
        }
    }

    /// All that the states met, in order.
    pub fn entries(&self) -> &[Entry]
        ensures value { result.now ≡ self.now.entries }
        ensures lawful { IsJournal self.now }
    {
        &self.entries
    }

    /// The states as the last entry left them.
    pub fn states(&self) -> &States
        ensures { result.now.object ≡ self.now.object }
    {
        &self.states
    }

    /// Asks the states, of TCP's flags with FIN, SYN and RST alone, and enters the ask with its answer.
    /// Where memory is wanted nothing has changed; the room that was made for a publication stays.
    pub fn ask(&mut self, lane: u32, at: u64, op: &Op) -> Result<Reply, OutOfMemory>
        requires lane { (1 ≤ lane) × (lane ≤ self.old.lanes) }
        requires rule { NamesRuleOf (last_rules self.old.facts) op.now }
        requires flags { HasKeptFlags op.now }
        ensures reply { IfOk result (λ reply. reply ≡ reply_of self.old.object op.now) }
        ensures entered { IfOk result (λ reply. self.new ≡ with_ask self.old lane at op.now reply) }
        ensures found { IfOk result (IsFoundOf (last_rules self.old.facts)) }
        ensures unchanged { OnErr result (self.new ≡ self.old) }
    {
        self.entries.reserve(2)?;
        let reply = self.states.step(op);
        self.entries.push_reserved(Entry::Ask {
            lane: lane as u16,
            op: *op,
            reply,
            at,
        });
        Ok(reply)
    }

    /// Makes room for one publication.
    pub fn ready(&mut self) -> Result<(), OutOfMemory>
        ensures made { OnOk result (self.new ≡ record self.old { ready = true }) }
        ensures unchanged { OnErr result (self.new ≡ self.old) }
    {
        self.entries.reserve(1)?;
        self.facts.reserve(1)?;
        self.is_ready = true;
        Ok(())
    }
}

fn is_among(rules: &[u32], wanted: u32) -> bool
    ensures { result ≡ has_id rules.now wanted }
{
    rules.iter().any(|id| *id == wanted)
}

/// The states as the first publication leaves them.
fn open_states(alloc: Global, facts: &Facts) -> Result<States, OutOfMemory>
    ensures object { IfOk result (λ states. states.object
        ≡ journal.object_after_publication journal.no_states facts.now) }
    ensures room { IfOk result (λ states. 65536 ≤ states.room) }
{
    States::open(alloc, MOST_STATES, facts.settings)
}

impl Kept for Book {
    type Facts = Facts;

    type Item = Item;

    ghost number = { λ book. length book.facts };

    ghost tag = { λ book. last_facts book.facts };

    ghost ready = { λ book. book.ready };

    ghost of = { items_of };

    ghost facts_number = { λ facts. facts.number };

    ghost facts_item = { λ facts. Published facts };

    fn current(&self) -> u64 {
        self.facts.len() as u64
    }

    fn is_ready(&self) -> bool {
        self.is_ready
    }

    /// Takes in a publication, for which there is room. It takes no memory.
    fn publish(&mut self, facts: Facts)
        requires room { self.old.ready ≡ true }
        requires next { facts.number ≡ length self.old.facts + 1 }
        ensures published { self.new ≡ with_publication self.old facts }
        ensures number { length self.new.facts ≡ facts.number }
        ensures tag { last_facts self.new.facts ≡ facts }
        ensures item { items_of self.new 0 ≡ items_of self.old 0 ++ Published facts ∷ [] }
        ensures others { (k : ℕ) → k ≢ 0 → items_of self.new k ≡ items_of self.old k }
    {
        self.states.publish(&facts);
        self.entries.push_reserved(Entry::Publish(facts.number));
        self.facts.push_reserved(facts);
        self.is_ready = false;
    }
}

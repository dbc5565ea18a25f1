ghost use Rattle.std.specs.Prelude.{◌≡◌, ◌≤◌, ◌<◌, ◌^◌, true, length, IfOk, OnOk, OnErr};
ghost use Rattle.dyn_states.specs.StateObject.{reply_of};
ghost use Rattle.state_asks.specs.Flags.{HasKeptFlags};
ghost use Rattle.state_journal.specs.Journal.{IsJournal, first_journal, with_ask, NamesRuleOf, IsFoundOf};
ghost use Rattle.state_journal.specs.Items.{last_facts};

use fw_base::{Kept, OutOfMemory};
use generation_store::Edition;
use state_asks::{Facts, Op, Reply};
use state_journal::{Book, Item};
use std::alloc::Global;
use std::marker::Model;

/// The book of the states as it goes in and out of its slot: as a pointer.
#[derive(Drop)]
pub(crate) struct SharedBook {
    book: Box<Book>,
}

impl Model for SharedBook {
    ghost use Rattle.state_journal.specs.Journal.{Journal};

    ghost Value = { Journal };

    ghost view = { λ b. b.book.value };
}

impl SharedBook {
    /// The book of so many lanes that begins with the publication of edition 1.
    pub(crate) fn open(
        alloc: Global,
        edition: &Edition,
        lanes: u32,
    ) -> Result<SharedBook, OutOfMemory>
        requires number { edition.now.facts.number ≡ 1 }
        requires lanes { (1 ≤ lanes) × (lanes ≤ 64) }
        ensures { IfOk result (λ book. book ≡ first_journal lanes edition.now.facts) }
    {
        let book = Book::open(alloc, lanes, edition.facts().share()?)?;
        Ok(SharedBook {
            book: Box::new(alloc, book)?,
        })
    }

    /// Does nothing, and says that it is a journal, whose entries a u64 counts.
    fn law_of_journal(&self)
        ensures journal { IsJournal self.now }
        ensures counted { length self.now.entries < 2 ^ 64 }
    {
        let _count = self.book.entries().len();
    }

    /// Asks the states for a record of the lane, and enters the ask with its answer. Where memory is wanted
    /// nothing has changed.
    pub(crate) fn ask(&mut self, lane: u32, at: u64, op: &Op) -> Result<Reply, OutOfMemory>
        requires lane { (1 ≤ lane) × (lane ≤ self.old.lanes) }
        requires rule { NamesRuleOf (last_facts self.old.facts).rules op.now }
        requires flags { HasKeptFlags op.now }
        ensures reply { IfOk result (λ reply. reply ≡ reply_of self.old.object op.now) }
        ensures entered { IfOk result (λ reply. self.new ≡ with_ask self.old lane at op.now reply) }
        ensures found { IfOk result (IsFoundOf (last_facts self.old.facts).rules) }
        ensures unchanged { OnErr result (self.new ≡ self.old) }
        ensures journal { IsJournal self.old }
        ensures counted { length self.new.entries < 2 ^ 64 }
    {
        self.law_of_journal();
        let reply = self.book.ask(lane, at, op);
        self.law_of_journal();
        reply
    }

    /// Makes room for one publication.
    pub(crate) fn ready(&mut self) -> Result<(), OutOfMemory>
        ensures made { OnOk result (self.new ≡ record self.old { ready = true }) }
        ensures unchanged { OnErr result (self.new ≡ self.old) }
    {
        self.book.ready()
    }

    /// The book itself, which is a journal.
    pub(crate) fn into_book(self) -> Book
        ensures value { result ≡ self }
        ensures journal { IsJournal result }
    {
        self.law_of_journal();
        Box::into_inner(self.book)
    }
}

impl Kept for SharedBook {
    ghost use Rattle.std.specs.Prelude.{length};
    ghost use Rattle.state_journal.specs.Items.{items_of, last_facts};
    ghost use Rattle.state_journal.specs.declared.entry.Item.TheVariants.{Published};

    type Facts = Facts;

    type Item = Item;

    ghost number = { λ b. length b.facts };

    ghost tag = { λ b. last_facts b.facts };

    ghost ready = { λ b. b.ready };

    ghost of = { items_of };

    ghost facts_number = { λ facts. facts.number };

    ghost facts_item = { λ facts. Published facts };

    fn current(&self) -> u64 {
        self.book.current()
    }

    fn is_ready(&self) -> bool {
        self.book.is_ready()
    }

    fn publish(&mut self, facts: Facts) {
        self.book.publish(facts);
    }
}

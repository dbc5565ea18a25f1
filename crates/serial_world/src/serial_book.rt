ghost use Rattle.std.specs.Prelude.{◌≡◌, ◌≤◌, ◌∷◌, [], length, IfOk, IfErr, OnOk, OnErr};
ghost use Rattle.std.specs.Arc.{arc_value};
ghost use Rattle.fw_rule.specs.WellFormed.{IsWellFormed};
ghost use Rattle.generation_store.specs.Published.{IsEdition};
ghost use Rattle.rule_edits.specs.Changing.{IsChanging};
ghost use Rattle.state_journal.specs.Journal.{IsJournal, first_journal};
ghost use Rattle.fw_world.specs.CommitFaults.{IsCauseOf};
ghost use Rattle.fw_world.specs.World.{published_count};
ghost use Rattle.serial_world.specs.Steps.{Publishes};
ghost use Rattle.serial_world.specs.WorldKept.{IsWorld};

use fw_base::{Kept, OutOfMemory};
use fw_rule::Command;
use fw_world::{AsksBook, CommitFault, last_edition, next_edition, share_edition, store_of};
use generation_store::{Edition, Store};
use state_asks::{Op, Reply};
use state_journal::Book;
use std::alloc::Global;
use std::marker::Model;
use std::sync::Arc;

/// The editions, and the one book of the states, where one thread has both.
#[derive(Drop)]
pub(crate) struct SerialBook {
    pub(crate) book: Book,
    pub(crate) store: Store,
}

impl Model for SerialBook {
    ghost use Rattle.fw_world.specs.World.{WorldValue};
    ghost use Rattle.serial_world.specs.WorldKept.{IsWorld};

    ghost Value = { WorldValue };

    ghost view = { λ b. record { editions = b.store.editions; journal = b.book } };

    ghost invariant = { λ b. IsWorld (record { editions = b.store.editions; journal = b.book }) };
}

impl SerialBook {
    /// The book of so many lanes that begins with the publication of edition 1.
    pub(crate) fn open(
        alloc: Global,
        edition: Arc<Edition>,
        lanes: u32,
    ) -> Result<SerialBook, OutOfMemory>
        requires number { (arc_value edition).number ≡ 1 }
        requires factual { IsEdition (arc_value edition) }
        requires lanes { (1 ≤ lanes) × (lanes ≤ 64) }
        ensures editions { IfOk result (λ opened. opened.editions ≡ arc_value edition ∷ []) }
        ensures journal { IfOk result (λ opened.
            opened.journal ≡ first_journal lanes (arc_value edition).facts) }
    {
        let book = open_book(alloc, &edition, lanes)?;
        let store = store_of(alloc, edition)?;
        Ok(SerialBook { book, store })
    }

    /// Does nothing, and says that editions and book are a world, and the book lawful.
    pub(crate) fn law_of_world(&self)
        ensures world { IsWorld self.now }
        ensures journal { IsJournal self.now.journal }
    {
        let _entries = self.book.entries();
    }

    /// The number of the last edition.
    pub(crate) fn published(&self) -> u64
        ensures { result ≡ published_count self.now }
    {
        self.store.all().len() as u64
    }

    /// Publishes what the command makes of the last edition as the next one, here and where it is shown,
    /// and answers its number. All memory is taken before.
    pub(crate) fn publish(
        &mut self,
        alloc: Global,
        shown: &mut Store,
        command: &Command,
    ) -> Result<u64, CommitFault>
        requires shown { shown.old.editions ≡ self.old.editions }
        requires command { IsWellFormed command.now }
        requires changing { IsChanging command.now }
        ensures published { OnOk result (Publishes self.old self.new command.now) }
        ensures number { IfOk result (λ number. number ≡ published_count self.new) }
        ensures shown { shown.new.editions ≡ self.new.editions }
        ensures more { length shown.old.editions ≤ length shown.new.editions }
        ensures cause { IfErr result (IsCauseOf self.old.editions command.now) }
        ensures unchanged { OnErr result (self.new ≡ self.old) }
    {
        let edition = next_edition(alloc, self.store.all(), command)?;
        let facts = edition.facts().share()?;
        let number = edition.number();
        let shared = share_edition(&edition)?;
        self.store.ready()?;
        shown.ready()?;
        self.book.ready()?;
        self.book.publish(facts);
        self.store.push(edition);
        shown.push(shared);
        Ok(number)
    }
}

/// The book of so many lanes that begins with the publication of edition 1.
fn open_book(alloc: Global, edition: &Edition, lanes: u32) -> Result<Book, OutOfMemory>
    requires number { edition.now.facts.number ≡ 1 }
    requires lanes { (1 ≤ lanes) × (lanes ≤ 64) }
    ensures { IfOk result (λ book. book ≡ first_journal lanes edition.now.facts) }
{
    Book::open(alloc, lanes, edition.facts().share()?)
}

impl AsksBook for SerialBook {
    ghost use Rattle.std.specs.Prelude.{◌≡◌, ◌≤◌, length};
    ghost use Rattle.state_journal.specs.Journal.{with_ask};
    ghost use Rattle.serial_world.specs.LastEdition.{last_published};

    ghost edition = { λ b. last_published b.editions };

    ghost serves = { λ b lane. (1 ≤ lane) × (lane ≤ b.journal.lanes) };

    ghost enters = { λ old lane at op reply new.
        new ≡ record old { journal = with_ask old.journal lane at op reply } };

    ghost misses = { λ old new. new ≡ old };

    ghost entered = { λ b. length b.journal.entries };

    fn edition(&self) -> &Edition {
        last_edition(self.store.all())
    }

    fn entered(&self) -> u64 {
        self.book.entries().len() as u64
    }

    fn ask(&mut self, lane: u32, at: u64, op: &Op) -> Result<Reply, OutOfMemory> {
        self.book.ask(lane, at, op)
    }
}

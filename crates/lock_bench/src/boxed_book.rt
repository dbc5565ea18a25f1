ghost use Rattle.std.specs.Prelude.{length};
ghost use Rattle.state_journal.specs.Items.{items_of, last_facts};
ghost use Rattle.state_journal.specs.declared.entry.Item.TheVariants.{Published};

use fw_base::Kept;
use state_asks::Facts;
use state_journal::{Book, Item};

/// The states' book behind a pointer, which goes into its slot and out of it in place of the book.
#[derive(Drop)]
pub struct BoxedBook {
    pub book: Box<Book>,
}

impl Kept for BoxedBook {
    type Facts = Facts;

    type Item = Item;

    ghost number = { λ b. length b.book.value.facts };

    ghost tag = { λ b. last_facts b.book.value.facts };

    ghost ready = { λ b. b.book.value.ready };

    ghost of = { λ b. items_of b.book.value };

    ghost facts_number = { λ facts. facts.number };

    ghost facts_item = { λ facts. Published facts };

    fn current(&self) -> u64 {
        self.book.current()
    }

    fn is_ready(&self) -> bool {
        self.book.is_ready()
    }

    fn publish(&mut self, facts: Facts) {
        self.book.publish(facts);
    }
}

ghost use Rattle.lock_bench.specs.Asked.{IsAskedBy};

use bench_asks::{host_of, lookup};
use fw_base::OutOfMemory;
use state_asks::FlowName;
use state_journal::Book;

/// A lookup by that lane, where the book has it.
pub fn look_up(book: &mut Book, lane: u32, record: u32) -> Result<(), OutOfMemory>
    ensures { IsAskedBy lane book.old book.new }
{
    if 1 <= lane && lane <= book.lanes() {
        book.ask(
            lane,
            u64::from(record),
            &lookup(host_of(record), record, FlowName::Any),
        )?;
    }
    Ok(())
}

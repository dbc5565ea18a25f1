ghost use Rattle.std.specs.Prelude.{◌≡◌, [], None};

use fw_rule::Items;
use fw_world::Record;
use report_texts::Ends;
use std::alloc::Global;

/// What a run answers.
#[derive(Drop)]
pub struct Outcome<S> {
    /// The exit status: 0 to 6, or 7 where an audit says no.
    pub status: u8,
    /// How the captures ended and which lines have answers, where a report or a summary was begun.
    pub ends: Ends,
    /// What the report or the summary was written of, where it was begun.
    pub kept: Option<Record>,
    /// Of an audit the report's source; the script's and then the captures' in the order of the words. They stand
    /// here as far as they were opened; none of a load.
    pub sources: Vec<S>,
}

impl<S> Outcome<S> {
    /// The answer where memory ran out.
    pub fn out_of_memory(alloc: Global) -> Outcome<S>
        ensures status { result.status ≡ 6 }
        ensures ends { result.ends.captures ≡ [] }
        ensures answers { result.ends.answers ≡ [] }
        ensures kept { result.kept ≡ None }
        ensures nothing { result.sources.items ≡ [] }
    {
        Outcome {
            status: 6,
            ends: no_ends(alloc),
            kept: None,
            sources: Vec::new(alloc),
        }
    }
}

/// No capture ended, and no line has an answer.
pub fn no_ends(alloc: Global) -> Ends
    ensures captures { result.captures ≡ [] }
    ensures answers { result.answers ≡ [] }
{
    Ends {
        captures: Items::from_vec(Vec::new(alloc)),
        answers: Items::from_vec(Vec::new(alloc)),
    }
}

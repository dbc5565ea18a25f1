ghost use Rattle.std.specs.Prelude.{◌≡◌, IfOk};
ghost use Rattle.evaluation_laws.specs.Story as spec;
ghost use Rattle.evaluation_laws.specs.Views.{ending_of, story_of};

use crate::searched::Searched;
use eval_engine::Judgement;
use fw_base::OutOfMemory;
use state_asks::{Op, Reply};
use std::alloc::Global;
use std::collections::LinkedList;

/// How a run ends.
#[derive(Clone, Copy)]
pub(crate) enum Ending<'r> {
    /// By a judgement, with these replies left over.
    Ends(Judgement, &'r [Reply]),
    /// At an ask with no reply left.
    OpensAt(Op),
    /// At a reply that isn't one to its ask.
    Mistakes,
    /// By a `return`, with these names looked up and these replies left.
    Returns(Searched, &'r [Reply]),
}

/// What a run comes to.
#[derive(Drop)]
pub(crate) struct Story<'r> {
    /// Its asks, in order.
    pub(crate) asks: LinkedList<Op>,
    /// The counter numbers of its hits, in order.
    pub(crate) hits: LinkedList<u32>,
    pub(crate) ending: Ending<'r>,
}

/// With nothing asked and no hit.
pub(crate) fn plainly<'r>(alloc: Global, ending: Ending<'r>) -> Story<'r>
    ensures { story_of result ≡ spec.plain_story (ending_of ending.entry) }
{
    Story {
        asks: LinkedList::new(alloc),
        hits: LinkedList::new(alloc),
        ending,
    }
}

/// Behind this ask.
pub(crate) fn asked<'r>(op: Op, story: Story<'r>) -> Result<Story<'r>, OutOfMemory>
    ensures { IfOk result (λ more. story_of more ≡ spec.story_with_ask op (story_of story.entry)) }
{
    let mut story = story;
    story.asks.push_front(op)?;
    Ok(story)
}

/// Behind this hit.
pub(crate) fn hit<'r>(counter: u32, story: Story<'r>) -> Result<Story<'r>, OutOfMemory>
    ensures { IfOk result (λ more. story_of more
        ≡ spec.story_with_hit counter (story_of story.entry)) }
{
    let mut story = story;
    story.hits.push_front(counter)?;
    Ok(story)
}

/// One run behind the other.
pub(crate) fn behind<'r>(first: Story<'r>, story: Story<'r>) -> Result<Story<'r>, OutOfMemory>
    ensures { IfOk result (λ both. story_of both
        ≡ spec.stories_in_turn (story_of first.entry) (story_of story.entry)) }
{
    let mut first = first;
    let mut story = story;
    first.asks.append(&mut story.asks)?;
    first.hits.append(&mut story.hits)?;
    Ok(Story {
        asks: first.asks,
        hits: first.hits,
        ending: story.ending,
    })
}

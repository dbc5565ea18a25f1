ghost use Rattle.std.specs.Prelude.{◌≡◌};
ghost use Rattle.generation_store.specs.Published.{has_identity};
ghost use Rattle.eval_engine.specs.Evaluation as spec;

use generation_store::Edition;
use state_asks::{Op, Reply};

/// Whether the reply is one to the ask of an evaluation under this edition: to a lookup a state of one of
/// its rules, or none; to an install one of the other four.
pub fn is_reply_to(edition: &Edition, op: &Op, reply: &Reply) -> bool
    ensures { result ≡ spec.is_reply_to edition.now.config.rules op.now reply.now }
{
    match op {
        Op::Lookup { .. } => match reply {
            Reply::Found(_, rule) => has_identity(edition, rule.id),
            Reply::NotFound => true,
            Reply::Created | Reply::Exists | Reply::LimitReached(_) | Reply::TableFull(_) => false,
        },
        Op::Install { .. } => match reply {
            Reply::Found(..) | Reply::NotFound => false,
            Reply::Created | Reply::Exists | Reply::LimitReached(_) | Reply::TableFull(_) => true,
        },
    }
}

fn has_identity(edition: &Edition, id: u32) -> bool
    ensures { result ≡ has_identity edition.now.config.rules id }
{
    edition.place_of(id).is_some()
}

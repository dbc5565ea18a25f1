ghost use Rattle.std.specs.Prelude.{◌≡◌};
ghost use Rattle.lookup_tables.specs.Change.{decider_after_change};
ghost use Rattle.lookup_tables.specs.Piece.{decider};

use crate::Piece;
use crate::piece::are_equal;
use fw_base::Prefix;

/// What becomes of the pieces of a prefix.
#[derive(Clone, Copy)]
pub(crate) enum Change {
    /// The prefix is put in: it decides where no longer one does.
    Put {
        prefix: Prefix,
        value: u32,
    },
    /// The prefix is taken out: where it decided, the next shorter one does.
    Take {
        prefix: Prefix,
        next: Option<(Prefix, u32)>,
    },
}

impl Change {
    /// The piece after the change.
    pub(crate) fn changed(&self, piece: Piece) -> Piece
        ensures first { result.first ≡ piece.first }
        ensures decider { decider result ≡ decider_after_change self.now (decider piece) }
    {
        match self {
            Change::Put { prefix, value } => put(piece, *prefix, *value),
            Change::Take { prefix, next } => take(piece, *prefix, next),
        }
    }
}

fn put(piece: Piece, prefix: Prefix, value: u32) -> Piece
    ensures first { result.first ≡ piece.first }
    ensures decider { decider result
        ≡ decider_after_change (Change.Put prefix value) (decider piece) }
{
    if piece.value.is_some() && piece.prefix.length() >= prefix.length() {
        piece
    } else {
        Piece {
            first: piece.first,
            value: Some(value),
            prefix,
        }
    }
}

fn take(piece: Piece, prefix: Prefix, next: &Option<(Prefix, u32)>) -> Piece
    ensures first { result.first ≡ piece.first }
    ensures decider { decider result
        ≡ decider_after_change (Change.Take prefix next.now) (decider piece) }
{
    if piece.value.is_some() && are_equal(piece.prefix, prefix) {
        decided(piece, next)
    } else {
        piece
    }
}

/// The piece, where this decides it.
fn decided(piece: Piece, next: &Option<(Prefix, u32)>) -> Piece
    ensures first { result.first ≡ piece.first }
    ensures decider { decider result ≡ next.now }
{
    match next {
        Some((prefix, value)) => Piece {
            first: piece.first,
            value: Some(*value),
            prefix: *prefix,
        },
        None => Piece {
            first: piece.first,
            value: None,
            prefix: piece.prefix,
        },
    }
}

ghost use Rattle.std.specs.Prelude.{◌≡◌, ◌⊎◌, ◌+◌, ◌-◌, ◌<◌, ◌≤◌, ◌||◌, ℕ, Bool, true, nat_eq, Option, length, vec_len, vec_capacity};
ghost use Rattle.fw_base.specs.Prefix.{Network};
ghost use Rattle.lookup_tables.specs.Change.{AreChanged};
ghost use Rattle.lookup_tables.specs.Pieces.{IsDivision, IsIn, Tells, HaveEnds, first_of};

use crate::Piece;
use crate::change::Change;
use fw_base::Addr;

/// The place of the last piece that begins at or below the address.
pub(crate) fn place_in(pieces: &[Piece], address: Addr) -> usize
    requires { IsDivision pieces.now }
    ensures { IsIn pieces.now address.0 result }
{
    pieces.partition_point(|piece| piece.first.0 <= address.0) - 1
}

/// Cuts the piece that has the address, where it doesn't begin there; answers the place of the one
/// that then does.
pub(crate) fn cut_at(pieces: &mut Vec<Piece>, address: Addr) -> usize
    requires division { IsDivision pieces.old.items }
    requires room { vec_len pieces.old < vec_capacity pieces.old }
    ensures division { IsDivision pieces.new.items }
    ensures tells { (decided : ℕ → Option (Network × ℕ)) → Tells decided pieces.old.items
        → Tells decided pieces.new.items }
    ensures ends { (is_end : ℕ → Bool) → HaveEnds is_end pieces.old.items → is_end address.0 ≡ true
        → HaveEnds is_end pieces.new.items }
    ensures within { result < length pieces.new.items }
    ensures begins { first_of pieces.new.items result ≡ address.0 }
    ensures before { (place : ℕ) → place < length pieces.old.items
        → first_of pieces.old.items place < address.0
        → first_of pieces.new.items place ≡ first_of pieces.old.items place }
    ensures longer { length pieces.old.items ≤ length pieces.new.items }
    ensures room { vec_len pieces.new + vec_capacity pieces.old
        ≤ vec_len pieces.old + 1 + vec_capacity pieces.new }
{
    let place = place_in(pieces, address);
    let piece = pieces[place];
    if piece.first.0 == address.0 {
        return place;
    }
    let cut = Piece {
        first: address,
        value: piece.value,
        prefix: piece.prefix,
    };
    // There is room, so that this succeeds.
    let _ = pieces.insert(place + 1, cut);
    place + 1
}

/// Joins the piece that begins at the address to the one before it, where both are decided alike.
pub(crate) fn join_at(pieces: &mut Vec<Piece>, address: Addr)
    requires { IsDivision pieces.old.items }
    ensures division { IsDivision pieces.new.items }
    ensures tells { (decided : ℕ → Option (Network × ℕ)) → Tells decided pieces.old.items
        → Tells decided pieces.new.items }
    ensures ends { (is_end : ℕ → Bool) (decided : ℕ → Option (Network × ℕ))
        → Tells decided pieces.old.items
        → HaveEnds (λ a. is_end a || nat_eq a address.0) pieces.old.items → is_end 0 ≡ true
        → (0 < address.0 → (decided (address.0 - 1) ≡ decided address.0)
        ⊎ (is_end address.0 ≡ true)) → HaveEnds is_end pieces.new.items }
{
    let place = place_in(pieces, address);
    if place > 0
        && pieces[place].first.0 == address.0
        && pieces[place].is_like(&pieces[place - 1])
    {
        pieces.remove(place);
    }
}

/// Changes the pieces from one place to before another.
pub(crate) fn change_pieces(pieces: &mut Vec<Piece>, start: usize, end: usize, change: &Change)
    requires { end ≤ vec_len pieces.old }
    ensures division { IsDivision pieces.old.items → IsDivision pieces.new.items }
    ensures changed { start ≤ end
        → AreChanged change.now pieces.old.items pieces.new.items start end }
{
    for place in start..end {
        pieces[place] = change.changed(pieces[place]);
    }
}

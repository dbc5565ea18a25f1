ghost use Rattle.report_moves.specs.Moves.{NothingMovesOfItself, MovesTurnRound};

/// Of a list beside itself nothing moves.
pub fn nothing_moves_of_itself()
    ensures { NothingMovesOfItself }
{}

/// With the lists turned round each move is turned round.
pub fn moves_turn_round()
    ensures { MovesTurnRound }
{}

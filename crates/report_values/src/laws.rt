//! Laws of the definitions of reading, the contracts of functions that do nothing.
ghost use Rattle.report_values.specs.Laws.{AnswersAreEnough};

/// The answers that stand at the front of a text are no more than its bytes: if at most so many are read, or
/// more, what stands behind them is the same.
pub fn answers_are_among_their_bytes()
    ensures { AnswersAreEnough }
{}

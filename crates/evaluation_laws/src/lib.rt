//! Laws of evaluations, sentence by sentence of the manual, and a plain evaluator beside the one that is shipped.
//!
//! Tests: `engine_tests`, src/traces.
#![tactic(auto)]

pub use evaluation::{Evaluation, Outcome, evaluate};
pub use laws::{
    asks_are_answered, disabled_rules_never_act, disabled_rules_never_decide, evaluations_are_runs,
    evaluations_have_one_outcome, evaluations_open_before_they_end, installs_are_of_rules,
    replies_are_asked,
};

mod encounter;
mod ends;
mod evaluation;
mod laws;
mod places;
mod question;
mod running;
mod searched;
mod story;

//! Tests of the dynamic states, their texts and their journal by the public calls of dyn_states, state_texts and
//! state_journal.
#![tactic(auto)]

#[cfg(test)]
mod books;
#[cfg(test)]
mod states;

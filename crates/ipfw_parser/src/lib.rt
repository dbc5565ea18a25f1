//! Reads the words of a rule (ipfw(8), "RULE FORMAT"): a draft, or the first fault.
//!
//! Tests: `language_tests`, src/drafts.
#![tactic(auto)]

pub use addresses::{address, prefix};
pub use addresses6::{has_colon, prefix6};
pub use cut::cut as cut_at;
pub use kind::Kind;
pub use laws::{
    drafts_are_in_form, drafts_are_well_formed, faults_stand_at_words, options_are_read_in_turn,
};
pub use line::{line_end, parse_rule, skip, words_of};
pub use names::table_name;
pub use numbers::{number, set_number, starts_with_digit};
pub use parse_fault::ParseFault;
pub use rules::{expected, set_behind};
pub use word::Word;
pub use words::Words;

mod addresses;
mod addresses6;
mod cut;
mod kind;
mod laws;
mod line;
mod masks;
mod names;
mod negation;
mod numbers;
mod options;
mod parse_fault;
mod placed;
mod ports;
mod rules;
mod word;
mod words;

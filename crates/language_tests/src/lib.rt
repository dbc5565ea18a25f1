//! Tests of the rule language by its public calls: words (fw_lex), rules as texts (rule_text) and as drafts
//! (ipfw_parser), and whole scripts (fw_command).
#![tactic(auto)]

#[cfg(test)]
mod drafts;
#[cfg(test)]
mod scripts;
#[cfg(test)]
mod words;

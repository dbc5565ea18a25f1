//! Tests of editions, gates, evaluations, counts and cached verdicts by the public calls of generation_store,
//! rule_gates, eval_engine, evaluation_laws, counter_book and verdict_cache.
#![tactic(auto)]

#[cfg(test)]
mod caches;
#[cfg(test)]
mod counts;
#[cfg(test)]
mod drafts;
#[cfg(test)]
mod editions;
#[cfg(test)]
mod evaluations;
#[cfg(test)]
mod frames;
#[cfg(test)]
mod gates;
#[cfg(test)]
mod traces;

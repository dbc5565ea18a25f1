//! Tests of the shared world by the public calls of shared_world: lanes and a desk in threads, and the records that
//! they leave. Readers that use the book beside publications (`lanes_regain_beside_publications`), lanes of two
//! threads whose asks go in turn (`a_state_of_one_lane_is_found_by_the_other`), a lane that regains while the writer
//! waits (`a_lane_regains_behind_the_writer`), the lock's row of one processor through a world of one lane
//! (`lock_of_one_processor`), and a lane that wanted memory (`a_lane_that_wanted_memory_answers_so_again`, in which
//! tests/refusals refuses each allocation in turn).
#![tactic(auto)]

#[cfg(test)]
mod beside;
#[cfg(test)]
mod configuration;
#[cfg(test)]
mod memory;
#[cfg(test)]
mod one_lane;
#[cfg(test)]
mod pair;
#[cfg(test)]
mod records;
#[cfg(test)]
mod sections;
#[cfg(test)]
mod traffic;
#[cfg(test)]
mod turns;
#[cfg(test)]
mod waits;
#[cfg(test)]
mod workers;
#[cfg(test)]
mod writer;

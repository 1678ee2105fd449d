//! Tests of ports and of the desks over them, through what each crate offers to others. They stand here, in a crate at the top,
//! since a crate with tests is proved twice. `tests_values` and `tests_reading` have the tests of what lies below.
//!
//! In `refused_memory_*` calls are refused memory: what one was refused for is begun anew, and where none is refused any more it
//! comes to what it does with memory enough. `tests/cases/libraries.py` refuses them each growth in turn.
#![tactic(auto)]

#[cfg(test)]
mod auditing_tests;
#[cfg(test)]
mod desk_tests;
#[cfg(test)]
mod jobs;
#[cfg(test)]
mod ledgers;
#[cfg(test)]
mod lent_port_tests;
#[cfg(test)]
mod refused_memory_loans;
#[cfg(test)]
mod refused_memory_steps;
#[cfg(test)]
mod refused_memory_threads;
#[cfg(test)]
mod threads_tests;

/// The greatest limit of a file.
#[cfg(test)]
pub(crate) const GREATEST: u64 = 1_099_511_627_776;

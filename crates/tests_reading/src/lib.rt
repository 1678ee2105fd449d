//! Tests of stores and of the client that lists a trace, through what each crate offers to others. They stand on no port and
//! on no desk. What is read of segments is shown by `tests/cases/readings.py`.
#![tactic(auto)]

#[cfg(test)]
mod listing_tests;
#[cfg(test)]
mod refused_memory_folds;
#[cfg(test)]
mod store_tests;

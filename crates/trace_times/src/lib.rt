//! The times that messages tell, and the calls that are open between them.
//!
//! `time_in` and `time_of_stamp` read a `Time` out of the text of a readable listing. `OpenCalls` has the calls of each process
//! that haven't ended: of each step it says which calls are then open (`Changes`), and at which depth a call stands (`placed`).
//! No contract says how long calls took: tests of the program show it.
#![tactic(auto)]

mod open_calls;
mod times;

pub use open_calls::{Closed, Ended, OpenCall, OpenCalls};
pub use times::{Time, between, time_in, time_of_stamp};

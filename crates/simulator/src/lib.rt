//! Runs a script over a store in memory, whose device calls can be made to fail and on which a crash can be tried.
//!
//! `run_sim` and `serve_sim` run a script over a store that is blank at first and has one file (`IsRun`); the second answers a
//! fault as it is told (`IsToldAs`). `run_lines` runs lines over a store that is there (`Simulates`). Each line is run whole
//! before the next one. A line that begins or resumes a trace makes a port, on which the lines after it are run until it is given
//! up (`WasRun`); what making it leaves at any moment is promised (`LeavesSo`), and why it is refused (`SaysWhyNot`). Any other
//! line does to the store what it says and nothing else (`Does`); a crash leaves what is picked of what wasn't synced, where one
//! may leave that (`Crashes`). What was answered before a fault is written. No contract says that no other calls fail than those
//! that the script makes fail. No real file is touched here.
#![tactic(auto)]

mod contents;
mod sim;
mod simulation;
mod store_lines;

pub use sim::{run_lines, run_sim};
pub use simulation::serve_sim;

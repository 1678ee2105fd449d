//! What a command tells on standard error of a fault, and of options without effect, and the exit status that it ends with.
//!
//! A `Complaint` is what ended a command before its end, with an `Advice` on what to do next; it displays as what is told.
//! `code_of` tells it and answers the exit status: 0 where the command was done, 2 where a line of a script isn't a command, else
//! 1 (`status_of_done`). `correct` tells what is wrong with a command line, with 2; but with 0 where that asks for help, and with
//! 1 where memory ran out (`status_of_misuse`). A fault stays what it is: `told` (`IsToldAs`), `fault_of_reading` (`read_fault`);
//! `fault_in_input` alone counts its place from the beginning of an input (`fault_past`). `with_kept` adds how much of an input
//! is kept (`complaint_with`). `tell_idle`, `tell_idle_on_file` and `tell_own` name the options. No contract says which words are
//! told, nor that an advice is right: tests of the program show it. No trace is changed here.
#![tactic(auto)]

mod absence;
mod complaint;
mod correction;
mod ending;
mod fault;
mod kept;
mod notices;
mod salvage;
mod sentence;

pub use absence::{in_the_way, instead, wrap_around, wrap_instead};
pub use complaint::{Advice, Complaint, damaged_file, is_full, is_of_several, told};
pub use correction::correct;
pub use ending::{Reasons, code_of, no_memory};
pub use fault::fault_of_reading;
pub use kept::{FAILED_DISK, Kept, fault_in_input};
pub use notices::{tell_idle, tell_idle_on_file, tell_own};
pub use salvage::Salvage;

//! Looks at the first bytes of files: is each a trace's or foreign, and which files don't belong together. It also clears them.
//!
//! A file is foreign (`IsForeign`) where it has two bytes or more, neither `DBT1` nor `DBT2` stands after its first byte, and its
//! first byte is neither 00 nor 01 or its bytes begin with a whole entry as an entry stream of Erlang's `dbg` has them: a drop
//! record (a count of lost messages), or a message that begins with 131. Any other file is one that a trace may have left
//! (`traces_are_ours` has one exception).
//!
//! `look` answers what stands there, with the first foreign file (`IsStanding`), `look_at` what the front of one file tells
//! (`IsFront`), and `disagreement` which files don't belong together (`TellsDisagreement`). They write nothing. `clear` leaves
//! one byte, 00, of each file that is foreign or open (37 bytes or more, the first 01), and writes no other (`AreCleared`).
#![tactic(auto)]

mod clearing;
mod disagreeing;
mod front;
mod headers;
mod laws;
mod named;
mod open_files;
mod sort;
mod standing;

pub use clearing::clear;
pub use disagreeing::disagreement;
pub use front::{FileLook, Front, look_at};
pub use headers::first_header;
pub use laws::{crashes_leave_ours, one_standing, traces_are_ours};
pub use named::Disagreement;
pub use sort::Sort;
pub use standing::{Standing, look};

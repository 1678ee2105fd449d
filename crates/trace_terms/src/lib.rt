//! Terms of Erlang, as far as trace messages need them: integers of 64 bits, atoms, the names of processes (pids), tuples, proper
//! lists and binaries.
//!
//! Contracts speak of the data that a `Term` stands for (`view`). `Atom::new` makes an atom of a text, and answers `TooLong`
//! exactly where the text has more than 255 characters. `copy` makes the same term, atom or pid once more. By `==` two of them
//! are equal exactly where they are the same (`equal_terms`). `Term::depth` answers how deep tuples and lists are nested
//! (`depth`), and 65 for all that are deeper.
//!
//! Floats, maps and other terms of a node aren't among them, and no bytes are read or written here. But for a text that is too
//! long, only lack of memory makes a call fail.
#![tactic(auto)]

mod atom;
mod fault;
mod laws;
mod term;

pub use atom::Atom;
pub use fault::{AtomFault, NoMemory};
pub use laws::equal_terms;
pub use term::{Pid, Term};

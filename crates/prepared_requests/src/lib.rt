//! What a request of the command line needs before it is served.
//!
//! `with_names` looks up the registered names by which a request asks for processes of a trace: each stands for the processes
//! that were registered under it, as the whole trace tells (`IsPrepared`). `serve_input` does over an entry stream from standard
//! input what is asked of a trace (`ServesInput`), where `-` stands in the place of the trace (`ReadsInput`): the stream is
//! recorded first. `import_files` imports into the files of a trace (`ImportsFiles`): once these are locked, the input of one
//! that is to be kept open is read ahead up to where entries begin in it (`BeginsImport`). No contract says in which folder a
//! stream is recorded, or what standard error says.
#![tactic(auto)]

mod advice;
mod ahead;
mod ahead_import;
mod ahead_scan;
mod holder;
mod input;
mod input_folder;
mod looking;
mod names;
mod names_seen;

pub use advice::{table_asked, tell_salvage};
pub use ahead_import::import_files;
pub use input::{reads_input, serve_input};
pub use names::with_names;

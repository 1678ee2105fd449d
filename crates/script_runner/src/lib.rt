//! Runs a script's lines on a port until one gives it up. `SimFault` is the fault of every command, `import` and `list` too.
//!
//! A port takes the entries of one trace and keeps them in a store. `hold` makes one over an opening, which says what was found
//! or begun in the store, of a trace in one file or in several used in turn, a wrap; it runs lines on it until it is given up,
//! and drops it (`WasHeldOver`). `record_script` does so at a desk, where traced processes hand it their messages,
//! `run_desk` at a desk that is there. Each line that the script gives is done once, in order (`AreTheLines`); it asks what it
//! says and nothing else (`IsAsked`), and what is written tells how that was answered (`Tells`). Where the store follows the disk
//! model, a crash at any moment leaves a prefix of what was accepted, of a wrap the last files of one, with all that was flushed
//! before that moment's line (`IsHeld`). `SimFault` is what ends a run; its `status` is 2 exactly for a line that isn't a
//! command. No trace is opened here.
#![tactic(auto)]

mod answer;
mod answers;
mod attached;
mod desk_lines;
mod fault;
mod opening;
mod port_lines;
mod reading;
mod record;
mod refusal;
mod reply;

pub use answer::Answer;
pub use answers::Answers;
pub use desk_lines::run_desk;
pub use fault::SimFault;
pub use opening::AnyOpening;
pub use port_lines::hold;
pub use reading::next_line;
pub use record::record_script;
pub use refusal::{HandRefusal, Refusal};
pub use reply::{Leave, Origin, Stop};

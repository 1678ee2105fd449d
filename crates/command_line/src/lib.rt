//! What the words of a command line of dbgrec ask for.
//!
//! `asked_for` answers a `Request`: what is to be done, where its trace is (`Asked`), what a trace is to be like that is made
//! where there is none (`Wanted`), how an import begins, flushes and ends (`Rules`), and how a listing is shown (`Shown`). Else
//! it answers a `Misuse`: why the words are no command line, or that they ask for help. No contract says which words ask for
//! what, since the crate `clap` that parses them promises too little: tests of the program show it. Nothing is looked up, read or
//! printed here.
#![tactic(auto)]

mod choice_words;
mod command;
mod function;
mod layout;
mod layout_words;
mod moment;
mod options;
mod process;
mod ranking;
mod request;
mod size;

pub use command::asked_for;
pub use layout::{Colours, Layout, Moment, TimeColumn};
pub use ranking::{Grouping, Order, Ranking};
pub use request::{
    Asked, Ending, Flushing, Form, Misuse, Request, Rules, Shape, Shown, TraceRequest, Wanted,
};

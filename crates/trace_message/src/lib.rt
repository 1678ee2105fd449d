//! The messages of a trace (`erlang:trace/3`): the terms that stand for events, and which event a term stands for.
//!
//! `message` makes the term of an `Event`, with the time stamp that the `Flags` ask for, and answers None where they don't ask
//! for the event (`message_of`). `classify` answers the kind of event that a term tells of, by its shape alone, and None exactly
//! where that is the shape of no kind (`IsMessage`). No term is a message of two kinds (`one_kind`), and the message of an event
//! is of the event's kind (`messages_have_their_kind`). A `Glance` is enough of a term that isn't held in memory to tell its kind
//! (`a_glance_tells_the_kind`).
//!
//! The kinds (`Seen`) are those of calls, returns, exceptions, and messages sent or received; other trace messages have none.
#![tactic(auto)]

mod event;
mod glance;
mod laws;
mod messages;
mod seen;
mod word;

pub use event::{Event, Flags, Stamp};
pub use glance::{Glance, Shape, Sort};
pub use laws::{a_glance_tells_the_kind, messages_have_their_kind, one_kind, some_kind_or_none};
pub use messages::{is_asked, message};
pub use seen::{Seen, classify};
pub use word::Word;

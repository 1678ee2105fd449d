//! What is made of the entries of a trace: tables, stacks and drawings.
//!
//! A `View` takes entries one by one; a `ViewFeed` hands it those that an export of a trace's items has (`TookItems`). `Top`
//! counts functions, processes and kinds exactly, and how many messages waited for a process at most (`IsCounted`), and tells
//! that in JSON (`WritesTable`); `Folded` counts how often each stack of calls was called (`IsFolded`), and `Perfetto` writes
//! events for each entry as it takes it, and answers what ends the drawing (`ending`); which functions tell their ends is seen
//! before (`EndsSeen`). No contract says how long calls took, how numbers are laid out for people, or what events tell: tests of
//! the program show it.
#![tactic(auto)]

mod acts;
mod arrows;
mod bars;
mod calls;
mod cells;
mod chosen_view;
mod clock;
mod drawing;
mod ends;
mod ends_seen;
mod event;
mod events;
mod folded;
mod functions;
mod lines;
mod member_text;
mod messages;
mod perfetto;
mod processes;
mod row;
mod rows;
mod stack_rows;
mod stacks;
mod table;
mod table_json;
mod taken;
mod tallies;
mod top;
mod tracks;
mod view;
mod view_feed;

pub use ends_seen::EndsSeen;
pub use folded::Folded;
pub use perfetto::{Ending, Perfetto};
pub use taken::Taken;
pub use top::Top;
pub use view::{View, ViewFault};
pub use view_feed::ViewFeed;

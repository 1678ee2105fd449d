//! The text of a listing: what stands in it for each entry, a line of text or a JSON object, and which entries have one.
//!
//! An entry is one message, or a drop record, which says how many messages were lost at its place. `put_line` puts what a listing
//! in a `Style` has of it (`IsLine`): its number, and the kind and text of the term that the message spells, plainly, of terms
//! that events are made of (`IsPlainTold`), or of any term as a node's shell shows it (`IsPrettyTold`); or an object of these
//! (`IsObject`), whose text reads back as that object (law `objects_read_back`). A message that spells no such term is opaque:
//! its size stands there. `IsListing` is a whole listing, with the lines that `put_before` and `put_end` put. A `Choice` asks for
//! entries by their numbers and terms (`chooses`): its listing has the lines of the whole one whose entries it asks for, in
//! order, and an empty line where it ends (law `chosen_lines_are_kept`). A `Chooser` tells which entries are asked for where none
//! has a line, as in an export (`is_chosen`). A `FactReader` tells of a message its kind, who is traced, the function that is
//! called, returned from or returned to, the process to which it is sent and the registered name that it tells, and its text
//! (`facts_in`, `IsTextTold`). Where memory runs out, nothing is said of the text. Nothing is read or written out here, and no
//! message is put together from several entries.
#![tactic(auto)]

mod any_laws;
mod any_leaf;
mod any_tag;
mod any_term;
mod atom_text;
mod big_text;
mod char_text;
mod choice;
mod choice_laws;
mod chooser;
mod chosen;
mod controls;
mod escapes;
mod fact_reader;
mod facts;
mod float_text;
mod kinds;
mod last_pid;
mod line;
mod members;
mod message;
mod object;
mod object_laws;
mod other_word;
mod part_line;
mod pretty;
mod separator;
mod sight;
mod spelled;
mod style;
mod term_text;
mod told;

pub use any_laws::{
    integers_have_no_point, one_any_reading, one_pretty_kind, one_pretty_text, read_any_is_spelled,
    spelled_any_is_read, subset_is_spelled,
};
pub use atom_text::is_plain;
pub use choice::{Choice, Filter, FunctionAsked};
pub use choice_laws::{chosen_lines_are_kept, processes_have_names};
pub use chooser::Chooser;
pub use fact_reader::{FactReader, MessageFacts};
pub use kinds::{KIND_COUNT, is_kind, kind_at};
pub use line::{Apart, put_before, put_end, put_line, put_missing, put_unread_line, whole_term};
pub use object_laws::objects_read_back;
pub use part_line::put_part_line;
pub use pretty::PrettyTeller;
pub use style::{Notation, Style, Wording};

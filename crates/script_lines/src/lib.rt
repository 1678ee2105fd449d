//! The script language of `dbgrec record` and `dbgrec sim`: reads the lines of a script one at a time.
//!
//! `parse` answers the line that a text spells, or None where it spells none (`Spells`, by the table in docs/FORMATS.md). No text
//! spells two lines that say different things (law `one_line`). A line is within limits (`IsWithinLimits`), so that the entry
//! that it puts may be stored. `Script::next_line` passes over empty lines and remarks, and answers the next line, the end, or
//! why neither comes, and its contract says which bytes it took off the reader for that (`TellsNext`). A line is refused, with
//! its number, where it has more than 300,000 bytes, isn't UTF-8, or spells no line that may stand there (`IsRefused`). A script
//! for a desk, where traced processes hand their messages to one port, has lines for that alone (`IsOfRecord`). A script of more
//! than 1,099,511,627,776 bytes is too long (`TellsRoom`). No line is run here.
#![tactic(auto)]

mod arguments;
mod desk_line;
mod event;
mod fault;
mod keyword;
mod laws;
mod line;
mod reading;
mod script;
mod spelling;

pub use desk_line::{DeskLine, TraceeLine};
pub use fault::ScriptFault;
pub use laws::one_line;
pub use line::{Line, Unsynced, parse};
pub use script::Script;

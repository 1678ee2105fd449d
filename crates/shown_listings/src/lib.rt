//! Standard input, output and error of the commands; and `show`, which writes a listing out. With `--to`, a listing marks its
//! end by an empty line; `show` writes only what stands before that.
//!
//! `show` shows what can be listed (`Listable`), by the entries that are chosen (`Shows`): as it is; or, where it may end
//! behind one of them (`may_end`), what stands before its first empty line, which a listing has there (`UpToEnd`). It is then
//! told as done, unless it can't be written out (`IsToldBy`). Of whole lines, none empty, all is shown (law
//! `ends_at_the_first_empty_line`). For a person it is laid out (`IsLaidOut`): each line has a row, in order, that shows its
//! text or the beginning of it (`HaveRows`); where the last alone are asked for, they are the last of these (`HaveLast`). Else
//! `Ahead` holds what comes first back, so that the rows know of it, and hands on all of it.
//! `Outlet` is standard output, `Inlet` standard input; each keeps why the system refused a call. A terminal gets each line
//! when it is written. `Console` is the clock, and standard error, where it shows how far a long run is. Of their bytes nothing
//! is known, so a clause on what is shown says something for other readers and writers alone; none says what stands on standard
//! error. Which lines a listing has is said where it is made.
#![tactic(auto)]

mod ahead;
mod clock_text;
mod console;
mod counted;
mod end_writer;
mod given;
mod held;
mod inlet;
mod laid_out;
mod laws;
mod listing;
mod look;
mod nesting;
mod noted;
mod notices;
mod outlet;
mod returned_to;
mod row;
mod rows;
mod screen;
mod sending;
mod shown_object;
mod since;
mod told_times;
mod zone;

pub use console::{Console, console_for};
pub use inlet::Inlet;
pub use laws::ends_at_the_first_empty_line;
pub use listing::{Listable, show, show_from};
pub use outlet::{Outlet, Output, taken};
pub use told_times::times_told;

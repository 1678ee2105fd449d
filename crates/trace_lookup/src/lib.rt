//! Where a trace is stored: the names of its files, by what a command line asks and by what is found there.
//!
//! `find` looks for one file, or for a wrap, a trace in several files of which the oldest is cleared when a new one begins. What
//! it answers has the shape that is asked for, and a header that it gives is of a file in its place (`IsFound`). `Place::of` is
//! the place of the trace: what is found says of which kind it is, and where nothing is, what is asked does (`IsPlaceFor`).
//! `Place::names` answers the names of its files (`AreNames`): the name that is asked for; of a wrap that name with a number and
//! the suffix behind it, for one file more than those whose entries it keeps (`name_of`, `file_count`). `RunEnd::of` says by
//! which size or time a new wrap goes on to its next file (`run_end_of`). `is_crowded` says that so many files can't be open at
//! once only where the system says so (`IsTooMany`). No contract says that what is found stands in the files. Nothing is written
//! here.
#![tactic(auto)]

mod lookup;
mod place;
mod room;
mod shown;
mod spot;

pub use lookup::{Found, Member, find, first_wrap_file, has_bytes, wrap_of, wrap_of_closed};
pub use place::{Kind, Place, RunEnd};
pub use room::{Crowded, is_crowded, is_too_many};
pub use shown::Shown;
pub use spot::{Spot, spot_of};

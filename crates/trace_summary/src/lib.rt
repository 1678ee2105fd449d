//! A stored trace in numbers: what its files hold, and what its messages tell, as text for a person and as a JSON object.
//!
//! `sum_up_trace` counts what each file of a store holds (`AreFound`), and what they hold together (`IsJudged`); it only reads,
//! and bounds its device calls. An `Info` is made of what the files read as together, and takes what is found in each (`add`).
//! `fault` answers why the files aren't one whole trace, exactly where they aren't.
#![tactic(auto)]

mod info;
mod info_json;
mod kinds;
mod members;
mod parting;
mod stamp;
mod summary;
mod text;

pub use info::{Info, Part, Totals};
pub use summary::{TraceSummary, sum_up_trace};

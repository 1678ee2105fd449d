//! Erlang's External Term Format, of the subset of terms that trace messages need: terms read from bytes, and written as bytes.
//!
//! Many byte strings may spell a term: the relation `Spells` says which. One of them is the canonical spelling: the function
//! `canonical`. `decode` answers the term that a front of the bytes spells, and the length of that front (`Decodes`). Where bytes
//! begin with no spelling, `whole_at` says which fault comes first from left to right. `encode` answers `canonical`, and refuses
//! exactly a term that is nested deeper than 64 or would take more than 65,531 bytes. Each may answer that memory ran out.
//!
//! No spelling begins another (`one_reading`); each is read as its term (`spelled_is_read`), and one that is cut short as
//! `Truncated` (`cut_is_truncated`). A tag outside the subset, as a float's or a map's, is `BadTag`. The public modules have
//! parts of both calls.
#![tactic(auto)]

pub mod atoms;
mod fault;
pub mod fields;
pub mod integers;
mod laws;
pub mod limits;
mod reading;
pub mod size;
pub mod tag;
pub mod writing;

pub use fault::{DecodeFault, EncodeFault};
pub use laws::{canonical_is_spelled, cut_is_truncated, one_reading, spelled_is_read};
pub use reading::{decode, inner_room, tail};
pub use writing::encode;

//! Records an entry stream, entries joined as a node writes them, through a port that keeps them in a store.
//!
//! `begin` skips bytes and reads once; None says that the stream ended before that gave a byte (`HasBegun`). `import_file` and
//! `import_wrap` put what comes into a port over an opening, which says what was found or begun in the store, of a trace in one
//! file or in several used in turn, a wrap; then they close and drop it (`WasImported`). After each read it is told the time and
//! given each entry that has come whole, once, in order (`HasAsked`): of a message that no entry can hold its fragments, or one
//! lost message where it is longer than is kept (`IsPiece`). What no node writes is refused where it begins (`IsFaultAt`). It is
//! flushed as the `Plan` says, and sealed, which ends the trace, exactly where that says so and the stream ends between two
//! entries (`Closes`). Where the store follows the disk model, a crash at any moment leaves a prefix of what was accepted, of a
//! wrap the last files of one, with all that was flushed before (`WasAsked`), and `Incoming::end_of` tells how much of the stream
//! is kept (`KeepsFirst`). No trace is opened here.
#![tactic(auto)]

mod beginning;
mod fault;
mod front;
mod import;
mod incoming;
mod long;
mod source;

pub use beginning::begin;
pub use fault::ImportFault;
pub use import::{Closed, Imported, Plan, import_file, import_wrap};
pub use incoming::{Incoming, Mark};
pub use source::{Source, Stream};

//! The commands of dbgrec over the real files of a trace, and the listing of a stream of entries, as a node writes it.
//!
//! `serve_files` does with a trace what is asked, of the entries that a choice asks for (`ServesFiles`), `list_files` also
//! shows its listing (`ListsFiles`), the last rows alone from an entry near the end on where that shows enough
//! (`ShowsTrace`), and `follow_files` goes on with what is added, and may wait for ever (`FollowsFiles`).
//! Each hands on the files and what was observed until then (`Served`). Their files are locked exactly where they are to be
//! changed (`AreMade`); where there are none to be had, nothing is written and the exit status is 1. What is done is `Serves`,
//! by the request: `Records`; `Feeds`, an import; `IsRead`, a listing or export; `IsSalvage`; `IsInfo`; `IsTop`, `IsFold`,
//! `IsDrawn`; `Clears`, a wipe; of a listing that goes on it is `Follows`. What a crash leaves is part of `Records`, `Feeds`
//! and `Clears`. What only reads leaves files as they are (`OnlyLooks`). A fault names its file, where it has one (`IsToldAt`).
//! A `StreamListing` lists a stream (`ListsStream`). Clauses on what files hold are of files that follow the disk model, so
//! that nobody else writes them (`honest_of`). No contract speaks of standard error, or says that a lock keeps others away.
#![tactic(auto)]

mod absence;
mod awaiting;
mod changing;
mod commands;
mod counting;
mod crowded;
mod files;
mod following;
mod importing;
mod informing;
mod inventory;
mod later;
mod live;
mod opening;
mod reading;
mod salvaging;
mod serving;
mod sites;
mod stage;
mod state;
mod streaming;
mod unshown;
mod viewing;

pub use commands::{serve_stream, serve_trace};
pub use files::Files;
pub use following::serve_following;
pub use live::{LiveReading, hand_live};
pub use serving::{Served, follow_files, list_files, serve_files};
pub use sites::files_for;
pub use streaming::StreamListing;

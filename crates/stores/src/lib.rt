//! Stores of numbered files: one in memory, with every image that a crash may leave, and one over real files, by their names.
//! Each is a `Store` of `trace_store`, which has the model of a disk.
//!
//! `MemStore` follows the model always. `crash` leaves the image that is picked, and refuses exactly one that no crash leaves
//! (`IsPossible`); `fuse` and `fail_once` make later calls fail (`FailsAt`). `FolderStore` makes each call once on a file of the
//! system, and notes it with its answer (`past_of`). It follows the model where this record is one of files that do (`IsHonest`).
//! Without its lock (`lock`) it changes no file. `reopen` and `renew` look anew at what another process writes.
//!
//! No clause says that the system was asked what is noted, or that its files follow the model. `FailureMark`, the file that says
//! that a sync failed, has no clause.
#![tactic(auto)]

mod call_record;
mod counts;
mod crash;
mod device_call;
mod failure_mark;
mod fault;
mod folder;
mod folder_store;
mod fuse;
mod mem_disk;
mod mem_store;
mod named_file;
mod named_files;
mod pick;
mod record;
mod tally;

pub use failure_mark::FailureMark;
pub use fault::{FileFault, LockFault};
pub use folder_store::FolderStore;
pub use mem_store::MemStore;
pub use named_file::is_locked;
pub use pick::{CrashFault, Pick};

//! What is put together of a term that is read.

use crate::last_pid::LastPid;
use std::alloc::Global;

/// The text of the term that is read, and what was seen of it. It is used again for the next term, and keeps the pid before
/// for that.
#[derive(Drop)]
pub struct Told<S> {
    pub text: Vec<u8>,
    pub seen: Vec<S>,
    pub pid: LastPid,
    /// Where the text of a message ends that is before the fifth member.
    pub place: usize,
}

impl<S> Told<S> {
    /// Buffers into which nothing was read.
    pub fn new(alloc: Global) -> Told<S> {
        Told {
            text: Vec::new(alloc),
            seen: Vec::new(alloc),
            pid: LastPid::new(alloc),
            place: 0,
        }
    }
}

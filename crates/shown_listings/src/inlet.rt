//! Standard input.

use std::cell::Cell;
use std::io::{self, Read};
use std::rt::Stdin;

/// Standard input, which notes why the last read that failed did so.
#[derive(Drop)]
pub struct Inlet<'a> {
    inner: Stdin,
    reason: &'a Cell<Option<io::Error>>,
}

impl<'a> Inlet<'a> {
    /// Standard input of the process. A read that fails replaces the reason that is noted there; one that succeeds leaves it.
    pub fn over(rt: &HostRuntime, reason: &'a Cell<Option<io::Error>>) -> Inlet<'a> {
        Inlet {
            inner: rt.stdin(),
            reason,
        }
    }
}

impl Read for Inlet<'_> {
    fn read(&mut self, bytes: &mut [u8]) -> io::Result<usize> {
        let answer = self.inner.read(bytes);
        if let Err(reason) = &answer {
            self.reason.set(Some(*reason));
        }
        answer
    }
}

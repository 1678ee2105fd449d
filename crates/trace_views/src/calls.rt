//! The open calls of a trace's functions, and how many calls and ends don't belong together.

use std::alloc::{AllocError, Global};
use trace_times::{Ended, OpenCall, OpenCalls};

/// How many calls and ends don't belong together.
#[derive(Clone, Copy)]
pub struct Unpaired {
    /// Calls of which no end is told, or not yet.
    pub calls: u64,
    /// Ends of which no call is open.
    pub ends: u64,
}

impl Unpaired {
    const NONE: Unpaired = Unpaired { calls: 0, ends: 0 };

    /// With one call more.
    fn with_call(self) -> Unpaired {
        Unpaired {
            calls: self.calls.saturating_add(1),
            ..self
        }
    }

    /// With one end more, of an open call or of none.
    fn with_end(self, is_of_call: bool) -> Unpaired {
        if is_of_call {
            Unpaired {
                calls: self.calls.saturating_sub(1),
                ..self
            }
        } else {
            Unpaired {
                ends: self.ends.saturating_add(1),
                ..self
            }
        }
    }
}

/// The calls that are open. Those of functions of which no end is told until then are forgotten first where they are too many.
#[derive(Drop)]
pub struct Calls {
    open: OpenCalls,
    /// Whether an end of a function is told, by the function's number.
    ends: Vec<bool>,
    pub unpaired: Unpaired,
}

impl Calls {
    /// None is open.
    pub fn new(alloc: Global) -> Calls {
        Calls {
            open: OpenCalls::new(alloc),
            ends: Vec::new(alloc),
            unpaired: Unpaired::NONE,
        }
    }

    /// A call of a process, by a message of this kind, or the end of one. What an end tells of its call, where that is open.
    pub fn note(
        &mut self,
        process: Option<&[u8]>,
        kind: &str,
        call: OpenCall,
    ) -> Result<Option<Ended>, AllocError> {
        if kind == "call" {
            self.unpaired = self.unpaired.with_call();
            self.open(process, call)?;
            return Ok(None);
        }
        self.note_end(call.function)?;
        let ended = self.open.note(process, kind, call)?;
        self.unpaired = self.unpaired.with_end(ended.is_some());
        Ok(ended)
    }

    /// A process calls a function.
    fn open(&mut self, process: Option<&[u8]>, call: OpenCall) -> Result<(), AllocError> {
        if let Some(process) = process {
            self.open.make_room(process, &self.ends);
            self.open.open(process, call)?;
        }
        Ok(())
    }

    /// An end of a function is told.
    fn note_end(&mut self, function: u32) -> Result<(), AllocError> {
        let place = function as usize;
        if place >= self.ends.len() {
            self.ends.resize(place.saturating_add(1), false)?;
        }
        if let Some(has_end) = self.ends.get_mut(place) {
            *has_end = true;
        }
        Ok(())
    }

    /// A process is back in a function.
    pub fn come_back(&mut self, process: &[u8], function: u32) {
        self.open.come_back(process, function);
    }

    /// A process exits.
    pub fn end(&mut self, process: &[u8]) {
        self.open.end(process);
    }

    /// No open call is known any more.
    pub fn lose(&mut self) {
        self.open.lose();
    }

    /// How many calls of each function are open, of this many functions.
    pub fn counts(&self, alloc: Global, functions: usize) -> Result<Vec<u64>, AllocError> {
        self.open.counts(alloc, functions)
    }
}

//! How deep a process is in its calls.

use std::alloc::{AllocError, Global};
use std::collections::HashMap;
use trace_times::{OpenCall, OpenCalls};

/// What a message tells, as its object has it.
#[derive(Clone, Copy)]
pub struct Told<'a> {
    pub kind: &'a str,
    pub process: Option<&'a str>,
    pub function: Option<&'a str>,
    /// In nanoseconds.
    pub time: Option<i64>,
}

/// Where a message stands among the calls of its process.
#[derive(Clone, Copy)]
pub struct Nested {
    /// How many calls are open around it.
    pub depth: usize,
    /// Of a return or an exception, the nanoseconds since its call, where both have a time.
    pub took: Option<u64>,
}

impl Nested {
    /// No call is known to be open around it.
    pub const APART: Nested = Nested {
        depth: 0,
        took: None,
    };
}

/// A function that was called or returned from.
#[derive(Clone, Copy)]
struct Known {
    number: u32,
    /// An end of it came, or is to come.
    tells_ends: bool,
}

/// The open calls of each process.
#[derive(Drop)]
pub struct Nesting {
    alloc: Global,
    /// Of functions that tell ends.
    calls: OpenCalls,
    /// Of functions that told none when they were called. They don't count for the depth.
    others: OpenCalls,
    functions: HashMap<Vec<u8>, Known>,
}

impl Nesting {
    /// No call is open, and of no function an end came.
    pub fn new(alloc: Global) -> Nesting {
        Nesting {
            alloc,
            calls: OpenCalls::new(alloc),
            others: OpenCalls::new(alloc),
            functions: HashMap::new(alloc),
        }
    }

    /// How deep a process is.
    fn depth(&self, process: &str) -> usize {
        self.calls.depth(process.as_bytes()) as usize
    }

    /// A function that is called or returned from, by its text.
    fn known(&mut self, function: &str) -> Result<Known, AllocError> {
        if let Some(known) = self.functions.get(function.as_bytes()) {
            return Ok(*known);
        }
        let known = Known {
            number: u32::try_from(self.functions.len()).unwrap_or(u32::MAX),
            tells_ends: false,
        };
        let text = Vec::from_slice(self.alloc, function.as_bytes())?;
        self.functions.insert(text, known)?;
        Ok(known)
    }

    /// An end of a function came, or is to come. Its number.
    pub fn learn(&mut self, function: &str) -> Result<u32, AllocError> {
        let Known { number, tells_ends } = self.known(function)?;
        if !tells_ends && let Some(known) = self.functions.get_mut(function.as_bytes()) {
            known.tells_ends = true;
        }
        Ok(number)
    }

    /// Messages were lost, or one can't be read: no call is known to be open any more.
    pub fn lose(&mut self) {
        self.calls.lose();
        self.others.lose();
    }

    /// A process calls a function.
    fn call(
        &mut self,
        process: &str,
        function: &str,
        time: Option<i64>,
    ) -> Result<Nested, AllocError> {
        let around = self.around(process);
        let Known { number, tells_ends } = self.known(function)?;
        let call = OpenCall::new(number, time);
        if tells_ends {
            self.calls.open(process.as_bytes(), call)?;
        } else {
            self.others.open(process.as_bytes(), call)?;
        }
        Ok(around)
    }

    /// A call of a function ends: the newest that is open, where one is. Around any other nothing is known to be open.
    fn end_of(
        &mut self,
        process: &str,
        function: &str,
        time: Option<i64>,
    ) -> Result<Nested, AllocError> {
        let number = self.learn(function)?;
        let ended = match self.calls.close(process.as_bytes(), number, time) {
            Some(ended) => Some(ended),
            None => self.others.close(process.as_bytes(), number, time),
        };
        match ended {
            Some(ended) => Ok(Nested {
                depth: self.depth(process),
                took: ended.took,
            }),
            None => Ok(Nested::APART),
        }
    }

    /// A process is back in a function: what was opened after its newest open call is over.
    fn back_to(&mut self, process: &str, function: &str) {
        if let Some(known) = self.functions.get(function.as_bytes()) {
            let number = known.number;
            self.calls.back_to(process.as_bytes(), &number);
            self.others.back_to(process.as_bytes(), &number);
        }
    }

    /// None of the calls of a process is open any more.
    fn end(&mut self, process: &str) {
        self.calls.end(process.as_bytes());
        self.others.end(process.as_bytes());
    }

    /// Notes what a message tells of the calls of its process.
    pub fn note(&mut self, told: Told<'_>) -> Result<Nested, AllocError> {
        let Some(process) = told.process else {
            return Ok(Nested::APART);
        };
        match (told.kind, told.function) {
            ("call", Some(function)) => self.call(process, function, told.time),
            ("return" | "exception", Some(function)) => self.end_of(process, function, told.time),
            ("return_to", Some(function)) => {
                self.back_to(process, function);
                Ok(self.around(process))
            }
            ("exit", _) => {
                let around = self.around(process);
                self.end(process);
                Ok(around)
            }
            _ => Ok(self.around(process)),
        }
    }

    /// Where a message stands that neither opens nor ends a call.
    fn around(&self, process: &str) -> Nested {
        Nested {
            depth: self.depth(process),
            took: None,
        }
    }
}

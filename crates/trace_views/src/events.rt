//! The events of a drawing, written as the Trace Event Format: one JSON object, with each event on a line of its own.

ghost use Rattle.std.specs.Prelude.{◌≡◌, ◌++◌, ◌∷◌, [], IfOk, OnOk};
ghost use Rattle.json.specs.Token.{begin_object, end_object};
ghost use Rattle.trace_views.specs.Drawings.{ending, times_told};

use crate::event::{Event, Phase, Told, put_member};
use crate::view::ViewFault;
use json::Writer;
use std::alloc::{AllocError, Global};
use std::io::{self, ErrorKind, Write};
use std::mem;

/// Before the first event.
const HEAD: &[u8] = b"{\"displayTimeUnit\":\"ns\",\"traceEvents\":[\n";

/// Between two events.
const BETWEEN: &[u8] = b",\n";

/// After the last event.
const BEHIND: &[u8] = b"\n],\"otherData\":";

/// After all.
const END: &[u8] = b"}\n";

/// What the process is called that all tracks are of.
const PROCESS: &[u8] = b"Erlang trace";

/// What times are where none is told.
const NO_TIMES: &str =
    "numbers of entries as microseconds: trace with the flag timestamp or monotonic_timestamp to have times";

/// What times are else.
const TIMES: &str = "from the first one, in microseconds";

/// Writes events.
#[derive(Drop)]
pub struct Events<'w, W> {
    alloc: Global,
    out: &'w mut W,
    /// The text of an event.
    line: Vec<u8>,
    /// An event was written.
    has_begun: bool,
}

impl<'w, W: Write> Events<'w, W> {
    /// None was written yet.
    pub fn new(alloc: Global, out: &'w mut W) -> Events<'w, W> {
        Events {
            alloc,
            out,
            line: Vec::new(alloc),
            has_begun: false,
        }
    }

    /// Writes an event; before the first one, what stands before all.
    pub fn put(&mut self, event: &Event<'_>) -> Result<(), ViewFault> {
        if !self.has_begun {
            self.begin()?;
        }
        self.put_behind(BETWEEN, event)
    }

    /// Names the process.
    fn begin(&mut self) -> Result<(), ViewFault> {
        self.has_begun = true;
        let process = Event {
            name: b"process_name",
            phase: Phase::Name,
            track: 0,
            time: 0,
            told: Told::Text("name", PROCESS),
        };
        self.put_behind(HEAD, &process)
    }

    /// Writes a text and an event.
    fn put_behind(&mut self, text: &[u8], event: &Event<'_>) -> Result<(), ViewFault> {
        let mut line = mem::replace(&mut self.line, Vec::new(self.alloc));
        line.clear();
        line.extend_from_slice(text)?;
        let mut writer = Writer::new(line);
        event.put(self.alloc, &mut writer)?;
        self.line = writer.into_inner();
        self.write()
    }

    /// The text that stands after all events, of which this is the first time that is told.
    pub fn ending(&mut self, first: Option<i64>) -> Result<Vec<u8>, ViewFault>
        ensures { IfOk result (λ text. text.items ≡ ending first) }
    {
        if !self.has_begun {
            self.begin()?;
        }
        let mut writer = Writer::new(Vec::from_slice(self.alloc, BEHIND)?);
        put_other(&mut writer, first)?;
        let mut text = writer.into_inner();
        text.extend_from_slice(END)?;
        Ok(text)
    }

    /// Writes the line.
    fn write(&mut self) -> Result<(), ViewFault> {
        match self.out.write_all(&self.line) {
            Ok(()) => Ok(()),
            Err(_) => Err(ViewFault::Write),
        }
    }
}

/// Puts an object that tells of the times.
fn put_other(out: &mut Writer, first: Option<i64>) -> Result<(), AllocError>
    ensures before { out.new.before ≡ out.old.before }
    ensures tokens { OnOk result (out.new.tokens ≡ out.old.tokens
        ++ (begin_object ∷ (times_told first ++ (end_object ∷ [])))) }
{
    out.begin_object()?;
    put_times(out, first)?;
    out.end_object()
}

/// Puts what is told of the times.
fn put_times(out: &mut Writer, first: Option<i64>) -> Result<(), AllocError>
    ensures before { out.new.before ≡ out.old.before }
    ensures tokens { OnOk result (out.new.tokens ≡ out.old.tokens ++ times_told first) }
{
    match first {
        None => put_member(out, "times", NO_TIMES),
        Some(first) => {
            put_member(out, "times", TIMES)?;
            out.key("first_time_in_nanoseconds")?;
            out.quoted_i64(first)
        }
    }
}

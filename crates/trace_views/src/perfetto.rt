//! A trace as a drawing: the Trace Event Format, which Perfetto, chrome://tracing and speedscope open.

ghost use Rattle.std.specs.Prelude.{◌≡◌, [], IfErr, IfOk, IsErr, IsSome, Some};
ghost use Rattle.trace_views.specs.Drawings.{ending};

use crate::drawing::Drawing;
use crate::ends_seen::EndsSeen;
use crate::taken::Taken;
use crate::view::{View, ViewFault};
use entry_codec::EntryRef;
use std::alloc::Global;
use std::io::Write;
use trace_text::FactReader;

/// What stands behind the events of a drawing.
#[derive(Drop)]
pub struct Ending {
    pub text: Vec<u8>,
    /// A time was told.
    pub has_times: bool,
}

/// Writes events for the entries that it takes.
#[derive(Drop)]
pub struct Perfetto<'w, W> {
    reader: FactReader,
    drawing: Drawing<'w, W>,
    /// Why no more is taken.
    fault: Option<ViewFault>,
    taken: Taken,
}

impl<'w, W: Write> Perfetto<'w, W> {
    /// No entry was taken yet, but by a first look at which functions tell their ends.
    pub fn new(alloc: Global, out: &'w mut W, seen: EndsSeen) -> Perfetto<'w, W>
        ensures { result.taken.entries ≡ [] }
    {
        Perfetto {
            reader: FactReader::new(alloc),
            drawing: Drawing::new(alloc, out, seen.ends),
            fault: None,
            taken: Taken::new(),
        }
    }

    /// Ends the slices that are open. What is to be written behind the events of all entries.
    pub fn end(&mut self) -> Result<Ending, ViewFault>
        ensures ending { IfOk result (λ behind. behind.text.items
            ≡ ending self.new.drawing.clock.first) }
        ensures fails { IfErr result (λ fault. self.new.fault ≡ Some fault) }
        ensures ended { IsSome self.old.fault → IsErr result }
    {
        if let Some(fault) = self.fault {
            return Err(fault);
        }
        match self.drawing.end() {
            Ok(text) => Ok(Ending {
                text,
                has_times: self.drawing.clock.first.is_some(),
            }),
            Err(fault) => {
                self.fault = Some(fault);
                Err(fault)
            }
        }
    }
}

impl<W: Write> View for Perfetto<'_, W> {
    ghost seen = { λ perfetto. perfetto.taken.entries };

    ghost failed = { λ perfetto. perfetto.fault };

    fn fault(&self) -> Option<ViewFault> {
        self.fault
    }

    fn take(&mut self, entry: EntryRef<'_>) -> Result<(), ViewFault> {
        if let Some(fault) = self.fault {
            return Err(fault);
        }
        if let Err(fault) = draw_entry(&mut self.reader, &mut self.drawing, entry) {
            self.fault = Some(fault);
            return Err(fault);
        }
        self.taken.note(entry);
        Ok(())
    }
}

/// Draws an entry.
fn draw_entry<W: Write>(
    reader: &mut FactReader,
    drawing: &mut Drawing<'_, W>,
    entry: EntryRef<'_>,
) -> Result<(), ViewFault> {
    match entry {
        EntryRef::Message(bytes) => draw_message(reader, drawing, bytes),
        EntryRef::Drop(count) => drawing.lost(count),
    }
}

/// Draws a message.
fn draw_message<W: Write>(
    reader: &mut FactReader,
    drawing: &mut Drawing<'_, W>,
    bytes: &[u8],
) -> Result<(), ViewFault> {
    match reader.read(bytes)? {
        Some(facts) => drawing.message(&facts),
        None => drawing.unread(bytes.len()),
    }
}

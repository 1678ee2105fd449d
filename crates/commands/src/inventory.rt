//! What a trace has: whether messages, and when they were.
ghost use Rattle.std.specs.Prelude.{◌≡◌, [], None};

use entry_codec::EntryRef;
use std::alloc::Global;
use trace_text::FactReader;
use trace_times::{Time, time_in};
use trace_views::{Taken, View, ViewFault};

/// The times of the messages that it takes.
#[derive(Drop)]
pub struct Inventory {
    reader: FactReader,
    /// The first time, and the last.
    pub times: Option<(Time, Time)>,
    pub has_message: bool,
    /// It takes nothing behind the first message.
    is_to_stop: bool,
    /// Why it takes no more.
    fault: Option<ViewFault>,
    taken: Taken,
}

impl Inventory {
    /// Of nothing. It takes no more than the first message where `is_to_stop` is true.
    pub fn new(alloc: Global, is_to_stop: bool) -> Inventory
        ensures taken { result.taken.entries ≡ [] }
        ensures fault { result.fault ≡ None }
    {
        Inventory {
            reader: FactReader::new(alloc),
            times: None,
            has_message: false,
            is_to_stop,
            fault: None,
            taken: Taken::new(),
        }
    }

    /// Notes a message, and its time where it tells one.
    fn note_message(&mut self, bytes: &[u8]) -> Result<(), ViewFault>
        ensures taken { self.new.taken.entries ≡ self.old.taken.entries }
        ensures fault { self.new.fault ≡ self.old.fault }
    {
        if self.has_message && self.is_to_stop {
            return Err(ViewFault::TooMany);
        }
        self.has_message = true;
        if let Some(facts) = self.reader.read(bytes)?
            && let Some(time) = time_in(facts.text)
        {
            let first = self.times.map_or(time, |times| times.0);
            self.times = Some((first, time));
        }
        Ok(())
    }
}

impl View for Inventory {
    ghost seen = { λ inventory. inventory.taken.entries };

    ghost failed = { λ inventory. inventory.fault };

    fn fault(&self) -> Option<ViewFault> {
        self.fault
    }

    fn take(&mut self, entry: EntryRef<'_>) -> Result<(), ViewFault> {
        if let Some(fault) = self.fault {
            return Err(fault);
        }
        if let EntryRef::Message(bytes) = entry
            && let Err(fault) = self.note_message(bytes)
        {
            self.fault = Some(fault);
            return Err(fault);
        }
        self.taken.note(entry);
        Ok(())
    }
}

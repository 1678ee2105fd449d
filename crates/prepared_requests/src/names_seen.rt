//! What the entries of a trace tell of registered names.

ghost use Rattle.std.specs.Prelude.{◌≡◌, [], map, string_bytes, None, OnOk};
ghost use Rattle.entry_codec.specs.{Entries.Message, Seen.lent};
ghost use Rattle.trace_views.specs.Taking.{in_two_looks};
ghost use Rattle.prepared_requests.specs.Names.{AreTold, AreTold-prop, as_entries, holding_in, holding_of, with_holding};

use crate::holder::{Holder, note_registered};
use entry_codec::EntryRef;
use std::alloc::{AllocError, Global};
use trace_text::FactReader;
use trace_views::{Taken, View, ViewFault};

/// The processes that the entries that it took tell to be registered under the names that are asked for.
#[derive(Drop)]
pub struct NamesSeen {
    alloc: Global,
    reader: FactReader,
    asked: Vec<String>,
    pub holders: Vec<Holder>,
    /// Why no more is taken.
    fault: Option<ViewFault>,
    taken: Taken,
    ghost told: { AreTold fault (map string_bytes asked.items) (map holding_of holders.items) taken.entries } by { AreTold-prop fault (map string_bytes asked.items) (map holding_of holders.items) taken.entries },
}

impl NamesSeen {
    /// No entry was taken yet.
    pub fn new(alloc: Global, asked: Vec<String>) -> NamesSeen
        ensures asked { result.asked ≡ asked }
        ensures taken { result.taken.entries ≡ [] }
        ensures fault { result.fault ≡ None }
    {
        NamesSeen {
            alloc,
            reader: FactReader::new(alloc),
            asked,
            holders: Vec::new(alloc),
            fault: None,
            taken: Taken::new(),
        }
    }
}

impl View for NamesSeen {
    // The names are told by what it has seen, so that they are known to be those that were asked for.
    ghost seen = { λ view. in_two_looks (as_entries (map string_bytes view.asked.items)) view.taken.entries };

    ghost failed = { λ view. view.fault };

    fn fault(&self) -> Option<ViewFault> {
        self.fault
    }

    fn take(&mut self, entry: EntryRef<'_>) -> Result<(), ViewFault> {
        if let Some(fault) = self.fault {
            return Err(fault);
        }
        if see_entry(
            self.alloc,
            &mut self.reader,
            &self.asked,
            &mut self.holders,
            entry,
        )
        .is_err()
        {
            self.fault = Some(ViewFault::NoMemory);
            return Err(ViewFault::NoMemory);
        }
        self.taken.note(entry);
        Ok(())
    }
}

/// Notes what an entry tells.
fn see_entry(
    alloc: Global,
    reader: &mut FactReader,
    asked: &[String],
    holders: &mut Vec<Holder>,
    entry: EntryRef<'_>,
) -> Result<(), AllocError>
    ensures { OnOk result (map holding_of holders.new.items
        ≡ with_holding (map holding_of holders.old.items)
        (holding_in (map string_bytes asked.now) (lent entry.entry))) }
{
    match entry {
        EntryRef::Message(bytes) => see_message(alloc, reader, asked, holders, bytes),
        EntryRef::Drop(_) => Ok(()),
    }
}

/// Notes what a message tells.
fn see_message(
    alloc: Global,
    reader: &mut FactReader,
    asked: &[String],
    holders: &mut Vec<Holder>,
    bytes: &[u8],
) -> Result<(), AllocError>
    ensures { OnOk result (map holding_of holders.new.items
        ≡ with_holding (map holding_of holders.old.items)
        (holding_in (map string_bytes asked.now) (Message bytes.now))) }
{
    match reader.read(bytes)? {
        Some(facts) => note_registered(alloc, asked, holders, &facts),
        None => Ok(()),
    }
}

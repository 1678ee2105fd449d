//! What a trace has most of: its functions, its processes, and the kinds of its messages.
ghost use Rattle.std.specs.Prelude.{◌≡◌, ◌++◌, ◌∷◌, [], None, List, IfErr, IfOk, IsTrue, OnOk, OnErr};
ghost use Rattle.std.specs.Io.KnownBytes.{Keeps};
ghost use Rattle.entry_codec.specs.{Entries.Entry, Entries.Message, Seen.lent};
ghost use Rattle.trace_views.specs.{Counting.Telling, Counting.telling_of, Counting.tellings, Tallies.IsCounted, Tallies.IsCountedUnless, Tallies.IsCountedUnless-prop, TableObjects.WritesTable, Taking.IsWhyStopped};

use crate::taken::Taken;
use crate::tallies::Tallies;
use crate::view::{View, ViewFault};
use command_line::Ranking;
use entry_codec::EntryRef;
use std::alloc::Global;
use std::io::{self, Write};
use trace_text::FactReader;

/// Counts the calls of each function, what each process does, and the messages of each kind.
#[derive(Drop)]
pub struct Top {
    reader: FactReader,
    tallies: Tallies,
    /// Why it takes no more.
    fault: Option<ViewFault>,
    taken: Taken,
    pub ghost counted: { IsCountedUnless fault tallies taken.entries } by { IsCountedUnless-prop fault tallies taken.entries },
}

impl Top {
    /// No entry was taken yet.
    pub fn new(alloc: Global) -> Top
        ensures seen { result.taken.entries ≡ [] }
        ensures counts { result.fault ≡ None }
    {
        Top {
            reader: FactReader::new(alloc),
            tallies: Tallies::new(alloc),
            fault: None,
            taken: Taken::new(),
        }
    }

    /// Writes the rows that are asked for, as text for a person or as one JSON object.
    pub fn write<W: Write>(
        &self,
        alloc: Global,
        ranking: Ranking,
        is_json: bool,
        out: &mut W,
    ) -> Result<io::Result<()>, ViewFault>
        ensures counted { OnOk result (IsCounted self.now.tallies
            (tellings self.now.taken.entries)) }
        ensures refused { IfErr result (IsWhyStopped self.now.fault) }
        ensures nothing { OnErr result (Keeps (W.contents out.old) (W.contents out.new)) }
        ensures told { IfOk result (λ written. IsTrue is_json → OnOk written
            (WritesTable ranking (tellings self.now.taken.entries) (W.contents out.old)
            (W.contents out.new))) }
    {
        if let Some(fault) = self.fault {
            return Err(fault);
        }
        let Ok(table) = self.tallies.table(alloc, ranking) else {
            return Err(ViewFault::NoMemory);
        };
        if !is_json {
            return Ok(write!(out, "{table}"));
        }
        match table.to_json(alloc) {
            Ok(text) => Ok(writeln!(out, "{text}")),
            Err(_) => Err(ViewFault::NoMemory),
        }
    }
}

/// Counts a message.
fn count_message(
    reader: &mut FactReader,
    tallies: &mut Tallies,
    bytes: &[u8],
) -> Result<(), ViewFault>
    ensures { (told : List Telling) → IsCounted tallies.old told
        → OnOk result (IsCounted tallies.new (told ++ (telling_of (Message bytes.now) ∷ []))) }
{
    match reader.read(bytes)? {
        Some(facts) => tallies.count_read(&facts),
        None => tallies.count_unread(),
    }
}

/// Counts an entry.
fn count_entry(
    reader: &mut FactReader,
    tallies: &mut Tallies,
    entry: EntryRef<'_>,
) -> Result<(), ViewFault>
    ensures { (told : List Telling) → IsCounted tallies.old told
        → OnOk result (IsCounted tallies.new (told ++ (telling_of (lent entry.entry) ∷ []))) }
{
    match entry {
        EntryRef::Message(bytes) => count_message(reader, tallies, bytes),
        EntryRef::Drop(count) => tallies.count_lost(count),
    }
}

impl View for Top {
    ghost seen = { λ top. top.taken.entries };

    ghost failed = { λ top. top.fault };

    fn fault(&self) -> Option<ViewFault> {
        self.fault
    }

    fn take(&mut self, entry: EntryRef<'_>) -> Result<(), ViewFault> {
        if let Some(fault) = self.fault {
            return Err(fault);
        }
        if let Err(fault) = count_entry(&mut self.reader, &mut self.tallies, entry) {
            self.fault = Some(fault);
            return Err(fault);
        }
        self.taken.note(entry);
        Ok(())
    }
}

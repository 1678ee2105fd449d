//! The processes that a trace tells of.
ghost use Rattle.std.specs.Prelude.{◌≡◌, [], List, OnOk, Some};
ghost use Rattle.std.specs.Option.{option_map};
ghost use Rattle.trace_text.specs.MessageFacts.{as_told};
ghost use Rattle.trace_views.specs.Counting.{Telling, by_name, changed_name, holder_after, mail, to_whom, with_read};
ghost use Rattle.trace_views.specs.Rows.{AreNamesTold, AreProcessesCounted, PutsIfTold, PutsProcess, process_counts_with, process_counts_sent_to, process_counts_at, SetsName, is_of_processes, who_does};

use crate::row::ProcessRow;
use crate::rows::put_new;
use crate::view::{ViewFault, or_too_many};
use std::alloc::Global;
use std::collections::HashMap;
use trace_text::MessageFacts;

/// The most registered names.
const MOST_NAMES: usize = 1_000_000;

/// Whether messages of this kind are counted of processes.
fn is_of_processes(kind: &str) -> bool
    ensures { result ≡ is_of_processes kind.now }
{
    kind == "call" || kind == "send" || kind == "send_lost" || kind == "receive"
}

/// The processes, with what is counted of them.
#[derive(Drop)]
pub struct Processes {
    alloc: Global,
    pub rows: HashMap<Vec<u8>, ProcessRow>,
    /// The processes that have registered names, by these.
    names: HashMap<Vec<u8>, Vec<u8>>,
}

impl Processes {
    /// None yet.
    pub fn new(alloc: Global) -> Processes
        ensures rows { AreProcessesCounted result.rows [] }
        ensures names { AreNamesTold result.names [] }
    {
        Processes {
            alloc,
            rows: HashMap::new(alloc),
            names: HashMap::new(alloc),
        }
    }

    /// Counts a message that was read, where there are at most so many rows.
    pub fn count(&mut self, facts: &MessageFacts<'_>, most: usize) -> Result<(), ViewFault>
        ensures rows { (told : List Telling) → AreProcessesCounted self.old.rows told
            → AreNamesTold self.old.names told
            → OnOk result (AreProcessesCounted self.new.rows (with_read told facts.now)) }
        ensures names { (told : List Telling) → AreNamesTold self.old.names told
            → OnOk result (AreNamesTold self.new.names (with_read told facts.now)) }
    {
        self.count_own(facts, most)?;
        self.count_target(facts, most)?;
        self.note_name(facts)
    }

    /// Counts what a process does.
    fn count_own(&mut self, facts: &MessageFacts<'_>, most: usize) -> Result<(), ViewFault>
        ensures rows { OnOk result (PutsIfTold (who_does (as_told facts.now))
            (process_counts_with facts.now.kind.now) self.old.rows self.new.rows) }
        ensures names { self.new.names ≡ self.old.names }
    {
        if !is_of_processes(facts.kind) {
            return Ok(());
        }
        match facts.tracee {
            Some(process) => self.count_one(process, facts.kind, most),
            None => Ok(()),
        }
    }

    /// Counts a message of this kind of this process.
    fn count_one(&mut self, process: &[u8], kind: &str, most: usize) -> Result<(), ViewFault>
        ensures rows { OnOk result (PutsProcess self.old.rows self.new.rows process.now
            (process_counts_with kind.now (process_counts_at self.old.rows process.now))) }
        ensures names { self.new.names ≡ self.old.names }
    {
        if let Some(row) = self.rows.get_mut(process) {
            *row = or_too_many(row.with(kind))?;
            return Ok(());
        }
        let row = or_too_many(ProcessRow::new().with(kind))?;
        put_new(&mut self.rows, self.alloc, process, row, most)
    }

    /// Counts a message that is sent to a process, by its text or by a registered name.
    fn count_target(&mut self, facts: &MessageFacts<'_>, most: usize) -> Result<(), ViewFault>
        ensures rows { (told : List Telling) → AreNamesTold self.old.names told
            → OnOk result (PutsIfTold (to_whom (mail told).holders (as_told facts.now))
            process_counts_sent_to self.old.rows self.new.rows) }
        ensures names { self.new.names ≡ self.old.names }
    {
        if let Some(process) = facts.receiver {
            return count_sent(&mut self.rows, self.alloc, process, most);
        }
        match facts.name {
            Some(name) if facts.kind == "send" => self.count_named(name, most),
            _ => Ok(()),
        }
    }

    /// Counts a message that is sent to a name: for the process that has it, or for the name where none is known to have it.
    fn count_named(&mut self, name: &[u8], most: usize) -> Result<(), ViewFault>
        ensures rows { (told : List Telling) → AreNamesTold self.old.names told
            → OnOk result (PutsIfTold (by_name (mail told).holders (Some name.now))
            process_counts_sent_to self.old.rows self.new.rows) }
        ensures names { self.new.names ≡ self.old.names }
    {
        match self.names.get(name) {
            Some(process) => count_sent(&mut self.rows, self.alloc, process, most),
            None => count_sent(&mut self.rows, self.alloc, name, most),
        }
    }

    /// Notes that a process gets a name, or that none has it any more.
    fn note_name(&mut self, facts: &MessageFacts<'_>) -> Result<(), ViewFault>
        ensures rows { self.new.rows ≡ self.old.rows }
        ensures names { OnOk result (SetsName (changed_name (as_told facts.now))
            (holder_after (as_told facts.now)) self.old.names self.new.names) }
    {
        let Some(name) = changed_name(facts) else {
            return Ok(());
        };
        match holder_after(facts) {
            Some(process) => self.give_name(name, process),
            None => {
                let _process = self.names.remove(name);
                Ok(())
            }
        }
    }

    /// A process gets a name.
    fn give_name(&mut self, name: &[u8], process: &[u8]) -> Result<(), ViewFault>
        ensures rows { self.new.rows ≡ self.old.rows }
        ensures names { OnOk result (SetsName (Some name.now) (Some process.now)
            self.old.names self.new.names) }
    {
        if self.names.len() >= MOST_NAMES {
            return Err(ViewFault::TooMany);
        }
        let name = Vec::from_slice(self.alloc, name)?;
        let process = Vec::from_slice(self.alloc, process)?;
        match self.names.insert(name, process) {
            Ok(_) => Ok(()),
            Err(_) => Err(ViewFault::NoMemory),
        }
    }
}

/// The name that a process gets by a message, or that none has any more.
fn changed_name<'t>(facts: &MessageFacts<'t>) -> Option<&'t [u8]>
    ensures { option_map (λ name. name.now) result ≡ changed_name (as_told facts.now) }
{
    if facts.kind == "register" || facts.kind == "unregister" {
        facts.name
    } else {
        None
    }
}

/// Who has it then.
fn holder_after<'t>(facts: &MessageFacts<'t>) -> Option<&'t [u8]>
    ensures { option_map (λ process. process.now) result ≡ holder_after (as_told facts.now) }
{
    if facts.kind == "register" {
        facts.tracee
    } else {
        None
    }
}

/// Counts a message that is sent to a process, where there are at most so many rows.
fn count_sent(
    rows: &mut HashMap<Vec<u8>, ProcessRow>,
    alloc: Global,
    process: &[u8],
    most: usize,
) -> Result<(), ViewFault>
    ensures { OnOk result (PutsProcess rows.old rows.new process.now
        (process_counts_sent_to (process_counts_at rows.old process.now))) }
{
    if let Some(row) = rows.get_mut(process) {
        *row = or_too_many(row.sent_to())?;
        return Ok(());
    }
    let row = or_too_many(ProcessRow::new().sent_to())?;
    put_new(rows, alloc, process, row, most)
}

//! The stacks of calls of a trace, for a flame graph.

ghost use Rattle.std.specs.Prelude.{◌≡◌, ◌++◌, ◌∷◌, [], List, ℕ, None, OnOk, OnErr};
ghost use Rattle.std.specs.{Io.KnownBytes.Appends, Coded.→_prop};
ghost use Rattle.entry_codec.specs.{Entries.Entry, Entries.Message, Seen.lent};
ghost use Rattle.trace_views.specs.Acts.{act_in, acts_in};
ghost use Rattle.trace_views.specs.Taking.{in_two_looks};
ghost use Rattle.trace_views.specs.Stacks.{Act as TheAct, AreOrdered, IsFolded, IsFolded-prop, calls_at, calls_of, lines_of};

use crate::acts::{Act, act_of};
use crate::ends_seen::EndsSeen;
use crate::stacks::Stacks;
use crate::taken::Taken;
use crate::view::{View, ViewFault};
use entry_codec::EntryRef;
use std::alloc::Global;
use std::io::{self, ErrorKind, Write};
use trace_text::FactReader;
use trace_times::{Time, time_in};

/// Counts the stacks of calls of each process.
#[derive(Drop)]
pub struct Folded {
    reader: FactReader,
    stacks: Stacks,
    /// Why no more is taken.
    fault: Option<ViewFault>,
    /// Those that told before which functions tell their ends.
    before: Taken,
    taken: Taken,
    ghost folded: { fault ≡ None → IsFolded (acts_in before.entries) stacks (acts_in taken.entries) } by { →_prop (IsFolded-prop (acts_in before.entries) stacks (acts_in taken.entries)) },
}

impl Folded {
    /// No entry was taken yet, but by a first look at which functions tell their ends. Calls of others open nothing; a function
    /// of which no end was seen there tells its ends from the first one on.
    pub fn new(alloc: Global, seen: EndsSeen) -> Folded
        requires { seen.fault ≡ None }
        ensures taken { result.taken.entries ≡ [] }
        ensures before { result.before.entries ≡ seen.taken.entries }
        ensures fault { result.fault ≡ None }
    {
        Folded {
            reader: FactReader::new(alloc),
            stacks: Stacks::new(alloc, seen.ends),
            fault: None,
            before: seen.taken,
            taken: Taken::new(),
        }
    }

    /// Writes a line for each stack, in the order of their texts: `PROCESS;M:F/A;M:G/B NUMBER`. The number is the time in
    /// which the innermost function ran, without the calls within it, in whole microseconds; where no times are told, how
    /// often it is called.
    pub fn write<W: Write>(&self, out: &mut W) -> io::Result<()>
        ensures lines { OnOk result (Appends (W.contents out.old) (W.contents out.new)
            (lines_of self.now.stacks.is_timed self.now.stacks.rows.rows.entries)) }
        ensures ordered { OnOk result (AreOrdered self.now.stacks.rows.rows) }
        // Each stack has as many calls as the entries tell. After a fault nothing is written.
        ensures calls { OnOk result ((text : List ℕ) → calls_at self.now.stacks.rows.rows text
            ≡ calls_of text (acts_in self.now.before.entries) (acts_in self.now.taken.entries)) }
    {
        if self.fault.is_some() {
            return Err(io::Error::from(ErrorKind::Other));
        }
        self.stacks.rows.write(self.stacks.is_timed, out)
    }
}

impl View for Folded {
    ghost seen = { λ folded. in_two_looks folded.before.entries folded.taken.entries };

    ghost failed = { λ folded. folded.fault };

    fn fault(&self) -> Option<ViewFault> {
        self.fault
    }

    fn take(&mut self, entry: EntryRef<'_>) -> Result<(), ViewFault> {
        if let Some(fault) = self.fault {
            return Err(fault);
        }
        if let Err(fault) = fold_entry(&mut self.reader, &mut self.stacks, entry) {
            self.fault = Some(fault);
            return Err(fault);
        }
        self.taken.note(entry);
        Ok(())
    }
}

/// Takes what an entry tells.
fn fold_entry(
    reader: &mut FactReader,
    stacks: &mut Stacks,
    entry: EntryRef<'_>,
) -> Result<(), ViewFault>
    ensures { (before acts : List TheAct) → IsFolded before stacks.old acts
        → OnOk result (IsFolded before stacks.new (acts ++ (act_in (lent entry.entry) ∷ []))) }
{
    match entry {
        EntryRef::Message(bytes) => fold_message(reader, stacks, bytes),
        EntryRef::Drop(_) => stacks.note(Act::Loss, None),
    }
}

/// Takes what a message tells.
fn fold_message(reader: &mut FactReader, stacks: &mut Stacks, bytes: &[u8]) -> Result<(), ViewFault>
    ensures { (before acts : List TheAct) → IsFolded before stacks.old acts
        → OnOk result (IsFolded before stacks.new (acts ++ (act_in (Message bytes.now) ∷ []))) }
{
    match reader.read(bytes)? {
        Some(facts) => stacks.note(act_of(&facts), time_in(facts.text).map(Time::nanos)),
        None => stacks.note(Act::Loss, None),
    }
}

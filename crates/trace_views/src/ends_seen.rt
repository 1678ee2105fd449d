//! A first look at the entries of a trace: which functions tell their ends.

ghost use Rattle.std.specs.Prelude.{◌≡◌, ◌++◌, ◌∷◌, [], List, ℕ, None, OnOk};
ghost use Rattle.std.specs.Coded.{→_prop};
ghost use Rattle.entry_codec.specs.{Entries.Entry, Entries.Message, Seen.lent};
ghost use Rattle.trace_views.specs.Acts.{act_in, acts_in, seen_act};
ghost use Rattle.trace_views.specs.Stacks.{Act as TheAct, AreEnds, AreEnds-prop};

use crate::acts::{Act, act_of};
use crate::ends::Ends;
use crate::taken::Taken;
use crate::view::{View, ViewFault};
use entry_codec::EntryRef;
use std::alloc::Global;
use trace_text::FactReader;

/// The functions of which the entries that it took tell a return or an exception.
#[derive(Drop)]
pub struct EndsSeen {
    reader: FactReader,
    pub ends: Ends,
    /// Why no more is taken.
    fault: Option<ViewFault>,
    pub taken: Taken,
    ghost told: { fault ≡ None → AreEnds ends (acts_in taken.entries) } by { →_prop (AreEnds-prop ends (acts_in taken.entries)) },
}

impl EndsSeen {
    /// No entry was taken yet.
    pub fn new(alloc: Global) -> EndsSeen
        ensures taken { result.taken.entries ≡ [] }
        ensures fault { result.fault ≡ None }
    {
        EndsSeen {
            reader: FactReader::new(alloc),
            ends: Ends::new(alloc),
            fault: None,
            taken: Taken::new(),
        }
    }
}

impl View for EndsSeen {
    ghost seen = { λ view. view.taken.entries };

    ghost failed = { λ view. view.fault };

    fn fault(&self) -> Option<ViewFault> {
        self.fault
    }

    fn take(&mut self, entry: EntryRef<'_>) -> Result<(), ViewFault> {
        if let Some(fault) = self.fault {
            return Err(fault);
        }
        if let Err(fault) = see_entry(&mut self.reader, &mut self.ends, entry) {
            self.fault = Some(fault);
            return Err(fault);
        }
        self.taken.note(entry);
        Ok(())
    }
}

/// Takes what an entry tells.
fn see_entry(reader: &mut FactReader, ends: &mut Ends, entry: EntryRef<'_>) -> Result<(), ViewFault>
    ensures { (acts : List TheAct) → AreEnds ends.old acts
        → OnOk result (AreEnds ends.new (acts ++ (act_in (lent entry.entry) ∷ []))) }
{
    match entry {
        EntryRef::Message(bytes) => see_message(reader, ends, bytes),
        EntryRef::Drop(_) => note(ends, Act::Loss),
    }
}

/// Takes what a message tells.
fn see_message(reader: &mut FactReader, ends: &mut Ends, bytes: &[u8]) -> Result<(), ViewFault>
    ensures { (acts : List TheAct) → AreEnds ends.old acts
        → OnOk result (AreEnds ends.new (acts ++ (act_in (Message bytes.now) ∷ []))) }
{
    match reader.read(bytes)? {
        Some(facts) => note(ends, act_of(&facts)),
        None => note(ends, Act::Loss),
    }
}

/// Notes the end of a call, where that is told.
fn note(ends: &mut Ends, act: Act<'_>) -> Result<(), ViewFault>
    ensures { (acts : List TheAct) → AreEnds ends.old acts
        → OnOk result (AreEnds ends.new (acts ++ (seen_act act.entry ∷ []))) }
{
    match act {
        Act::Return {
            process: _,
            function,
        } => ends.learn(function),
        _ => Ok(()),
    }
}

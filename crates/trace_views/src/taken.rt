//! The entries that a view took. It takes no memory, and only clauses read it.
ghost use Rattle.std.specs.Prelude.{◌≡◌, ◌++◌, [], ◌∷◌, List};
ghost use Rattle.std.specs.{Borrow.ftrue};
ghost use Rattle.entry_codec.specs.{Entries.Entry, Entries.Message, Entries.Drop, Seen.lent};
ghost use Rattle.trace_views.specs.{Taking.coded_entries};

use entry_codec::EntryRef;
use std::marker::{Model, PhantomData};

/// The entries, in their order.
#[derive(Drop)]
pub struct Taken {
    marker: PhantomData<u8>,
    pub ghost entries: { List Entry } by { coded_entries },
}

impl Model for Taken {
    ghost also_owns = { λ _. ftrue };
}

impl Taken {
    /// None yet.
    pub fn new() -> Taken
        ensures { result.entries ≡ [] }
    {
        Taken {
            marker: PhantomData,
        }
    }

    /// An entry is taken.
    pub fn note(&mut self, entry: EntryRef<'_>)
        ensures { self.new.entries ≡ self.old.entries ++ (lent entry.entry ∷ []) }
    {
        match entry {
            EntryRef::Message(bytes) => self.note_message(bytes),
            EntryRef::Drop(count) => self.note_drop(count),
        }
    }

    /// A message of these bytes is taken.
    fn note_message(&mut self, _bytes: &[u8])
        ensures { self.new
            ≡ record self.old { entries = self.old.entries ++ (Message _bytes.now ∷ []) } }
    {}

    /// A drop record of this count is taken.
    fn note_drop(&mut self, _count: u32)
        ensures { self.new
            ≡ record self.old { entries = self.old.entries ++ (Drop _count ∷ []) } }
    {}
}

//! The kinds of messages in a trace.
ghost use Rattle.std.specs.Prelude.{◌≡◌, [], List, OnOk};
ghost use Rattle.std.specs.List.{position};
ghost use Rattle.std.specs.Str.{bytes_eq};
ghost use Rattle.trace_views.specs.Counting.{Telling, with_read};
ghost use Rattle.trace_views.specs.Rows.{AreKindsCounted};

use crate::tallies::one_more;
use crate::view::ViewFault;
use std::alloc::Global;
use trace_text::MessageFacts;

/// How many messages there are of a kind.
#[derive(Clone, Copy)]
pub struct KindRow {
    /// The kind's word.
    pub word: &'static str,
    pub count: u64,
}

/// The kinds, in the order in which they were met. They are so few that to look at each takes less than a hash.
#[derive(Drop)]
pub struct Kinds {
    pub rows: Vec<KindRow>,
}

impl Kinds {
    /// None yet.
    pub fn new(alloc: Global) -> Kinds
        ensures { AreKindsCounted result.rows.items [] }
    {
        Kinds {
            rows: Vec::new(alloc),
        }
    }

    /// Counts a message that was read.
    pub fn count(&mut self, facts: &MessageFacts<'_>) -> Result<(), ViewFault>
        ensures { (told : List Telling) → AreKindsCounted self.old.rows.items told
            → OnOk result (AreKindsCounted self.new.rows.items (with_read told facts.now)) }
    {
        if let Some(place) = self.place_of(facts.kind) {
            let row = &mut self.rows[place];
            row.count = one_more(row.count)?;
            return Ok(());
        }
        let row = KindRow {
            word: facts.kind,
            count: 1,
        };
        match self.rows.push(row) {
            Ok(()) => Ok(()),
            Err(_) => Err(ViewFault::NoMemory),
        }
    }

    /// Where the row of a kind is.
    fn place_of(&self, kind: &str) -> Option<usize>
        ensures { result ≡ position (λ row. bytes_eq row.word.now kind.now) self.now.rows.items }
    {
        self.rows.iter().position(|row| row.word == kind)
    }
}

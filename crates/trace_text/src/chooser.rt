//! Whether entries are asked for, where there may be a choice.

ghost use Rattle.std.specs.Prelude.{◌≡◌, IfOk};
ghost use Rattle.entry_codec.specs.Seen.{lent};
ghost use Rattle.trace_text.specs.Choosing.{asks_of, chooses};

use crate::any_term::Sighted;
use crate::choice::Choice;
use crate::chosen::is_asked;
use crate::told::Told;
use entry_codec::EntryRef;
use std::alloc::{AllocError, Global};

/// Tells which entries are asked for: those of a choice, and each where there is none.
#[derive(Drop)]
pub struct Chooser<'c> {
    pub choice: Option<&'c Choice>,
    /// What is put together of a message that is looked at. It is used again for the next one.
    told: Sighted,
}

impl<'c> Chooser<'c> {
    ghost use Rattle.std.specs.Prelude.{◌≡◌, IfOk, OnErr, IsSome};
    ghost use Rattle.entry_codec.specs.Seen.{lent};
    ghost use Rattle.trace_text.specs.Chooses.{asks_where, is_chosen, is_part_chosen};

    /// It takes no memory before the first message that a choice has to look at.
    pub fn new(alloc: Global, choice: Option<&'c Choice>) -> Chooser<'c>
        ensures { result.choice ≡ choice.entry }
    {
        Chooser {
            choice,
            told: Told::new(alloc),
        }
    }

    /// Whether the entry of this number is asked for.
    #[inline(always)]
    pub fn chooses(&mut self, number: u64, entry: EntryRef<'_>) -> Result<bool, AllocError>
        ensures chosen { IfOk result (λ is. is
            ≡ is_chosen (asks_where self.old.choice) number (lent entry.entry)) }
        ensures memory { OnErr result (IsSome self.old.choice) }
        ensures choice { self.new.choice ≡ self.old.choice }
    {
        match self.choice {
            Some(choice) => is_chosen_by(&mut self.told, choice, number, entry),
            None => Ok(true),
        }
    }

    /// Whether parts of this number are asked for.
    pub fn chooses_part(&self, number: u64) -> bool
        ensures { result ≡ is_part_chosen (asks_where self.now.choice) number }
    {
        match self.choice {
            Some(choice) => choice.asks_part(number),
            None => true,
        }
    }
}

/// Whether a choice asks for the entry of this number.
fn is_chosen_by(
    told: &mut Sighted,
    choice: &Choice,
    number: u64,
    entry: EntryRef<'_>,
) -> Result<bool, AllocError>
    ensures { IfOk result (λ is. is ≡ chooses (asks_of choice.now) number (lent entry.entry)) }
{
    if !choice.is_not_later(number) {
        return Ok(false);
    }
    match entry {
        EntryRef::Drop(_) => Ok(true),
        EntryRef::Message(bytes) => {
            if choice.is_not_before(number) {
                is_asked(told, choice, bytes)
            } else {
                Ok(false)
            }
        }
    }
}

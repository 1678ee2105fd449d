//! What takes the items of a trace.

ghost use Rattle.std.specs.Prelude.{◌≡◌, ◌++◌, ◌∷◌, ℕ, List, [], OnOk, IfErr};
ghost use Rattle.trace_items.specs.Items.{Handed, handed, IsLawfulItem};
ghost use Rattle.trace_items.specs.declared.consumer.ConsumerFault.{ConsumerFault as TheFault};
ghost use Rattle.trace_items.specs.declared.consumer.ConsumerFault.TheVariants as faults;

use crate::item::Item;
use std::alloc::AllocError;

/// Why a consumer takes no more.
#[derive(Clone, Copy)]
pub enum ConsumerFault {
    /// What it writes to failed, or took no byte.
    Write,
    /// There was no room for what it makes of an item.
    NoMemory,
}

impl From<AllocError> for ConsumerFault {
    ghost from_gives = { λ _ fault. fault ≡ faults.NoMemory };

    fn from(_error: AllocError) -> ConsumerFault {
        ConsumerFault::NoMemory
    }
}

/// Takes the items of a trace, the oldest first.
pub trait Consumer {
    /// From one state to the other it took these items, with their numbers, and made of them what it makes.
    ghost goes: { Self → List (ℕ × Handed) → Self → Type 0 };

    /// In one state it failed at this item, which left the other.
    ghost fails: { Self → ℕ × Handed → TheFault → Self → Type 0 };

    /// Takes the next item: an entry with its number, a gap with that of the entry behind it, the end with that of the entry that
    /// would come next.
    fn take(&mut self, number: u64, item: Item<'_>) -> Result<(), ConsumerFault>
        requires { IsLawfulItem (handed item) }
        ensures ok { OnOk result (goes self.old ((number, handed item.entry) ∷ []) self.new) }
        ensures err { IfErr result
            (λ fault. fails self.old (number, handed item.entry) fault self.new) };

    /// Where nothing comes, it stays.
    ghost stays: { (consumer : Self) → goes consumer [] consumer };

    /// It takes some items and then others as it takes them in a row.
    ghost goes_on: { (a b c : Self) (first later : List (ℕ × Handed)) → goes a first b → goes b later c → goes a (first ++ later) c };
}

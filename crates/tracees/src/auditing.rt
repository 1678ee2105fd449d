//! Receipts against what a store has.

ghost use Rattle.std.specs.Prelude.{◌≡◌, ◌↔◌, IsTrue, OnOk, IfErr, IsSome, IfSome, OnSome, None};
ghost use Rattle.entry_codec.specs.Seen.{view, views};
ghost use Rattle.tracees.specs.Agreement.{Agrees, AllAgree, IsAgreed, Differs, FirstDiffers};

use crate::receipt::Receipt;
use entry_codec::Entry;
use recovery::Recovered;

/// An entry of a receipt isn't what the store has.
#[derive(Clone, Copy, Debug, PartialEq, Eq)]
pub struct Mismatch {
    /// The number of the entry in the port's whole trace.
    pub number: u64,
}

/// Whether an entry agrees with a window: it is older, equals the one there, or is past its end and not covered.
fn agrees(window: &Recovered, covered: u64, number: u64, entry: &Entry) -> bool
    ensures { IsTrue result ↔ Agrees window.now.first
        (views window.now.entries.items) covered number (view entry.now) }
{
    if number < window.first {
        return true;
    }
    let place = number - window.first;
    match window.entries.get(place as usize) {
        Some(kept) => kept == entry,
        None => covered <= number,
    }
}

/// The number of the first entry of a receipt that doesn't agree with the window; None where each does.
fn first_mismatch(window: &Recovered, receipt: &Receipt) -> Option<u64>
    ensures agreed { result ≡ None → IsAgreed window.now.first
        (views window.now.entries.items) receipt.now }
    ensures differs { IfSome result (λ number. Differs window.now.first
        (views window.now.entries.items) receipt.now number) }
{
    let covered = receipt.covered;
    for (place, entry) in receipt.entries.iter().enumerate() {
        // A number that is past the last of u64 is past every window, and not covered.
        let number = receipt.first.checked_add(place as u64)?;
        if !agrees(window, covered, number, entry) {
            return Some(number);
        }
    }
    None
}

/// Whether each entry of each receipt agrees with what the store has: an entry that is older than the window agrees; one
/// that lies in the window does where the window's is equal; and one past its end where its number isn't below the
/// receipt's `covered`. The first that doesn't is named.
pub fn audit(window: &Recovered, receipts: &[Receipt]) -> Result<(), Mismatch>
    ensures ok { OnOk result (AllAgree window.now.first
        (views window.now.entries.items) receipts.now) }
    ensures err { IfErr result (λ mismatch. FirstDiffers window.now.first
        (views window.now.entries.items) receipts.now mismatch.number) }
{
    for receipt in receipts {
        if let Some(number) = first_mismatch(window, receipt) {
            return Err(Mismatch { number });
        }
    }
    Ok(())
}

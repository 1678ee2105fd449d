//! The accounts of a desk against its book.

ghost use Rattle.std.specs.Prelude.{◌≡◌, OnOk, OnErr, IfOk, IfErr};
ghost use Rattle.tracees.specs.Sums.{sums_each, AddUp, AreShares, FallShort};
ghost use Rattle.tracees.specs.Settled.{IsSameDesk, IsHandedBack};

use crate::account::Account;
use crate::book::{Bookkeeping, Totals};
use crate::desk::Desk;
use crate::shared::SharedBook;
use trace_port::TracePort;

/// Why accounts don't settle.
#[derive(Drop)]
pub enum SettleFault<'p, P: TracePort, K: Bookkeeping> {
    /// An account that was attached isn't there. All is handed back.
    Missing {
        desk: Desk<'p, P, K>,
        accounts: Vec<Account<K>>,
    },
}

/// Adds up the accounts of a desk. Where they are all that were attached, answers what the desk's book counts, and so they do;
/// else Err (`Missing`), with all of them.
pub fn settle<'p, P: TracePort, K: SharedBook>(
    mut desk: Desk<'p, P, K>,
    mut accounts: Vec<Account<K>>,
) -> Result<(Desk<'p, P, K>, Totals), SettleFault<'p, P, K>>
    ensures ok { OnOk result (AddUp (K.totals_of desk.entry.book) (K.attached_of desk.entry.book)
        (sums_each K.sums_of accounts.items)) }
    ensures totals { IfOk result (λ done. done.1 ≡ K.totals_of desk.entry.book) }
    ensures desk { IfOk result (λ done. IsSameDesk P.TracePort K.Bookkeeping desk.entry done.0) }
    ensures missing { OnErr result (FallShort (K.totals_of desk.entry.book)
        (K.attached_of desk.entry.book) (sums_each K.sums_of accounts.items)) }
    ensures back { IfErr result (λ fault. IsHandedBack P.TracePort K.Bookkeeping desk.entry
        accounts.items fault) }
    ensures shares { AreShares (K.totals_of desk.entry.book) (K.attached_of desk.entry.book)
        (sums_each K.sums_of accounts.items) }
{
    let number = accounts.len() as u64;
    let sum = desk.book.sum_of(&mut accounts);
    let totals = desk.book.totals();
    if number == u64::from(desk.book.attached()) && sum == totals {
        Ok((desk, totals))
    } else {
        Err(SettleFault::Missing { desk, accounts })
    }
}

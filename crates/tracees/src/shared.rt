//! Books of which each account is a share.

ghost use Rattle.std.specs.Prelude.{◌≡◌, IsTrue};
ghost use Rattle.tracees.specs.Sums.{sums_each, summed, AreShares};

use crate::account::Account;
use crate::book::{Bookkeeping, Totals};

/// A book of which each account is a share by its type, so that threads may have its accounts.
pub trait SharedBook: Bookkeeping {
    /// The sums in the book.
    fn totals(&self) -> Totals
        ensures { result ≡ Self.totals_of self.now };

    /// What these accounts count together. It leaves them and the book as they are.
    fn sum_of(&mut self, accounts: &mut Vec<Account<Self>>) -> Totals
        ensures sum { result ≡ summed (sums_each Self.sums_of accounts.old.items) }
        ensures shares { AreShares (Self.totals_of self.old) (Self.attached_of self.old)
            (sums_each Self.sums_of accounts.old.items) }
        ensures totals { Self.totals_of self.new ≡ Self.totals_of self.old }
        ensures attached { Self.attached_of self.new ≡ Self.attached_of self.old }
        ensures accounts { sums_each Self.sums_of accounts.new.items
            ≡ sums_each Self.sums_of accounts.old.items };

    ghost is_shared: { IsTrue Self.shared };
}

//! What went through a tracee's account.

ghost use Rattle.std.specs.Prelude.{◌≡◌};

use crate::book::{Bookkeeping, Totals};

/// The messages and the drops that went from one tracee into its desk's port.
#[derive(Drop)]
pub struct Account<K: Bookkeeping> {
    pub(crate) slip: K::Slip,
}

impl<K: Bookkeeping> Account<K> {
    /// The messages and the drops that went through the account, and the messages that it had at the last `flush_for`
    /// that answered Ok, 0 before one.
    pub fn sums(&self) -> Totals
        ensures { result ≡ K.sums_of self.now.slip }
    {
        K::sums(&self.slip)
    }
}

//! A book of ledgers, of which each account is a share.

ghost use Rattle.std.specs.Prelude.{◌≡◌, ◌+◌, ◌<◌, ◌≤◌, ◌^◌, ℕ, true};

use crate::book::{Bookkeeping, Totals};
use std::marker::Brand;
use std::sync::ledger::{Blank, Book, Ledger, Share};

/// Into how many parts each ledger of a book is cut: one for each account, and one that stays with the book.
pub const PARTS: u64 = 4_294_967_296;

/// The number of the desk of a book of ledgers, which the type of its ledger of accounts carries.
pub trait Numbered {
    ghost number: { ℕ };
}

impl Numbered for Brand {
    ghost number = { 0 };
}

/// One number of a book: the sum of what its accounts count of it.
#[derive(Drop)]
pub(crate) struct BookCount<L: Ledger> {
    count: u64,
    book: Book<L>,
    /// The parts that no account has.
    rest: Share<L>,
    ghost counted: { book.total ≡ count },
    ghost spare: { rest.amount ≡ 0 },
}

/// One number of an account: a share of its book's.
#[derive(Drop)]
pub(crate) struct AccountCount<L: Ledger> {
    pub(crate) count: u64,
    pub(crate) share: Share<L>,
    ghost part: { share.parts ≡ 1 },
    ghost counted: { share.amount ≡ count },
}

impl<L: Ledger> BookCount<L> {
    /// A number that is 0, of which no account has a part.
    fn new(blank: Blank) -> BookCount<L>
        requires name { blank.name ≡ L.name }
        requires parts { blank.parts ≡ L.parts }
        ensures count { result.count ≡ 0 }
        ensures rest { result.rest.parts ≡ blank.parts }
    {
        let (book, rest) = blank.open::<L>();
        BookCount {
            count: 0,
            book,
            rest,
        }
    }

    /// A part for one more account, which counts nothing yet.
    fn open(&mut self) -> AccountCount<L>
        requires { 1 < self.old.rest.parts }
        ensures count { self.new.count ≡ self.old.count }
        ensures rest { self.new.rest.parts + 1 ≡ self.old.rest.parts }
        ensures result { result.count ≡ 0 }
    {
        let share = self.rest.split_off(1, 0);
        AccountCount { count: 0, share }
    }

    /// Adds `amount` to the number in the book and in the account.
    fn add(&mut self, account: &mut AccountCount<L>, amount: u64)
        requires { self.old.count + amount < 2 ^ 64 }
        ensures count { self.new.count ≡ self.old.count + amount }
        ensures rest { self.new.rest.parts ≡ self.old.rest.parts }
        ensures account { account.new.count ≡ account.old.count + amount }
        ensures within { account.old.count ≤ self.old.count }
    {
        let BookCount { count, book, .. } = self;
        let AccountCount { count: mine, share } = account;
        book.audit(share);
        book.add(share, amount);
        *count += amount;
        *mine += amount;
    }

    /// Subtracts all that the account counts from the book and the account, and answers how much that was.
    fn take(&mut self, account: &mut AccountCount<L>) -> u64
        ensures result { result ≡ account.old.count }
        ensures count { self.new.count + account.old.count ≡ self.old.count }
        ensures rest { self.new.rest.parts ≡ self.old.rest.parts }
        ensures account { account.new.count ≡ 0 }
    {
        let BookCount { count, book, .. } = self;
        let AccountCount { count: mine, share } = account;
        book.audit(share);
        let amount = *mine;
        book.sub(share, amount);
        *count -= amount;
        *mine = 0;
        amount
    }

    /// The number in the book.
    pub(crate) fn count(&self) -> u64
        ensures { result ≡ self.now.count }
    {
        self.count
    }

    /// A share without a part.
    pub(crate) fn empty_share(&mut self) -> Share<L>
        ensures amount { result.amount ≡ 0 }
        ensures count { self.new.count ≡ self.old.count }
        ensures rest { self.new.rest.parts ≡ self.old.rest.parts }
    {
        self.rest.empty()
    }

    /// Changes nothing: no share has more than the book counts.
    pub(crate) fn audit(&mut self, share: &mut Share<L>)
        ensures count { self.new.count ≡ self.old.count }
        ensures rest { self.new.rest.parts ≡ self.old.rest.parts }
        ensures amount { share.new.amount ≡ share.old.amount }
        ensures parts { share.new.parts ≡ share.old.parts }
        ensures within { share.old.amount ≤ self.old.count }
        ensures backed { share.old.parts ≡ 0 → share.old.amount ≡ 0 }
        ensures in_range { self.old.count < 2 ^ 64 }
    {
        let _count = self.count;
        self.book.audit(share);
    }
}

/// A book of four ledgers: flushed messages, other messages, drops, and the number of accounts. Its type and those of
/// its accounts carry the ledgers' names, so an account of another book isn't to be had.
#[derive(Drop)]
pub struct LedgerBook<F: Ledger, U: Ledger, D: Ledger, N: Ledger + Numbered> {
    pub(crate) flushed: BookCount<F>,
    pub(crate) unflushed: BookCount<U>,
    pub(crate) drops: BookCount<D>,
    pub(crate) accounts: BookCount<N>,
    ghost flushed_parts: { flushed.rest.parts + accounts.count ≡ 4294967296 },
    ghost unflushed_parts: { unflushed.rest.parts + accounts.count ≡ 4294967296 },
    ghost drops_parts: { drops.rest.parts + accounts.count ≡ 4294967296 },
    ghost accounts_parts: { accounts.rest.parts + accounts.count ≡ 4294967296 },
    ghost few: { accounts.count < 4294967296 },
    ghost in_range: { flushed.count + unflushed.count < 2 ^ 64 },
}

/// An account of a book of ledgers: a share of each, and one for itself in the number of accounts.
#[derive(Drop)]
pub struct LedgerAccount<F: Ledger, U: Ledger, D: Ledger, N: Ledger + Numbered> {
    pub(crate) flushed: AccountCount<F>,
    pub(crate) unflushed: AccountCount<U>,
    pub(crate) drops: AccountCount<D>,
    pub(crate) account: AccountCount<N>,
    ghost one: { account.count ≡ 1 },
    ghost in_range: { flushed.count + unflushed.count < 2 ^ 64 },
}

impl<F: Ledger, U: Ledger, D: Ledger, N: Ledger + Numbered> LedgerBook<F, U, D, N> {
    ghost use Rattle.tracees.specs.Books.{no_totals};

    /// A book in which nothing is counted and no account was opened, of four new ledgers of `PARTS` parts each.
    pub fn new(
        flushed: Blank,
        unflushed: Blank,
        drops: Blank,
        accounts: Blank,
    ) -> LedgerBook<F, U, D, N>
        requires flushed { (flushed.name ≡ F.name) × (flushed.parts ≡ F.parts)
            × (flushed.parts ≡ PARTS) }
        requires unflushed { (unflushed.name ≡ U.name) × (unflushed.parts ≡ U.parts)
            × (unflushed.parts ≡ PARTS) }
        requires drops { (drops.name ≡ D.name) × (drops.parts ≡ D.parts) × (drops.parts ≡ PARTS) }
        requires accounts { (accounts.name ≡ N.name) × (accounts.parts ≡ N.parts)
            × (accounts.parts ≡ PARTS) }
        ensures totals { ⟦<LedgerBook<F, U, D, N> as Bookkeeping>⟧.totals_of result ≡ no_totals }
        ensures attached { ⟦<LedgerBook<F, U, D, N> as Bookkeeping>⟧.attached_of result ≡ 0 }
    {
        LedgerBook {
            flushed: BookCount::new(flushed),
            unflushed: BookCount::new(unflushed),
            drops: BookCount::new(drops),
            accounts: BookCount::new(accounts),
        }
    }
}

impl<F: Ledger, U: Ledger, D: Ledger, N: Ledger + Numbered> Bookkeeping for LedgerBook<F, U, D, N> {
    type Slip = LedgerAccount<F, U, D, N>;

    ghost use Rattle.tracees.specs.Books.{totals};

    ghost totals_of = { λ book. totals (book.flushed.count + book.unflushed.count) book.drops.count book.flushed.count };

    ghost attached_of = { λ book. book.accounts.count };

    ghost sums_of = { λ slip. totals (slip.flushed.count + slip.unflushed.count) slip.drops.count slip.flushed.count };

    ghost shared = { true };

    ghost desk = { N.number };

    fn open(&mut self) -> LedgerAccount<F, U, D, N> {
        let LedgerBook {
            flushed,
            unflushed,
            drops,
            accounts,
        } = self;
        let flushed = flushed.open();
        let unflushed = unflushed.open();
        let drops = drops.open();
        let mut account = accounts.open();
        accounts.add(&mut account, 1);
        LedgerAccount {
            flushed,
            unflushed,
            drops,
            account,
        }
    }

    fn attached(&self) -> u32 {
        self.accounts.count() as u32
    }

    fn note(&mut self, slip: &mut LedgerAccount<F, U, D, N>, messages: u64, drops: u64) {
        let LedgerBook {
            flushed,
            unflushed,
            drops: dropped,
            accounts: _,
        } = self;
        flushed.audit(&mut slip.flushed.share);
        unflushed.add(&mut slip.unflushed, messages);
        dropped.add(&mut slip.drops, drops);
    }

    fn flush_account(&mut self, slip: &mut LedgerAccount<F, U, D, N>) {
        let LedgerBook {
            flushed,
            unflushed,
            drops: _,
            accounts: _,
        } = self;
        let amount = unflushed.take(&mut slip.unflushed);
        flushed.add(&mut slip.flushed, amount);
    }

    fn sums(slip: &LedgerAccount<F, U, D, N>) -> Totals {
        let messages = slip.flushed.count + slip.unflushed.count;
        Totals {
            messages,
            drops: slip.drops.count,
            flushed: slip.flushed.count,
        }
    }
}

//! What accounts of a book of ledgers count together.

ghost use Rattle.std.specs.Prelude.{◌≡◌, ◌+◌, ◌<◌, ◌≤◌, ◌^◌, map, vec_len, vec_capacity, refl};
ghost use Rattle.std.specs.List.{sum_by};

use crate::account::Account;
use crate::book::Totals;
use crate::ledgers::{AccountCount, LedgerAccount, LedgerBook, Numbered};
use crate::shared::SharedBook;
use std::sync::ledger::{Ledger, Share};

/// The shares of some accounts in one.
#[derive(Drop)]
struct Joined<F: Ledger, U: Ledger, D: Ledger, N: Ledger> {
    flushed: Share<F>,
    unflushed: Share<U>,
    drops: Share<D>,
    accounts: Share<N>,
}

/// What some accounts count together, and how many they are.
#[derive(Clone, Copy)]
struct Counted {
    flushed: u64,
    unflushed: u64,
    drops: u64,
    accounts: u64,
}

/// Joins the share of a count to others.
fn join<L: Ledger>(count: AccountCount<L>, joined: &mut Share<L>) -> u64
    ensures result { result ≡ count.count }
    ensures amount { joined.new.amount ≡ joined.old.amount + count.count }
    ensures parts { joined.new.parts ≡ joined.old.parts + 1 }
{
    let AccountCount { count, share } = count;
    joined.merge(share);
    count
}

/// Splits the share of this count off again.
fn part<L: Ledger>(joined: &mut Share<L>, count: u64) -> AccountCount<L>
    requires parts { 0 < joined.old.parts }
    requires amount { count ≤ joined.old.amount }
    requires last { joined.old.parts ≡ 1 → joined.old.amount ≡ count }
    ensures result { result.count ≡ count }
    ensures amount { joined.new.amount + count ≡ joined.old.amount }
    ensures parts { joined.new.parts + 1 ≡ joined.old.parts }
{
    let share = joined.split_off(1, count);
    AccountCount { count, share }
}

/// Joins the shares of an account to others.
fn join_all<F: Ledger, U: Ledger, D: Ledger, N: Ledger + Numbered>(
    account: Account<LedgerBook<F, U, D, N>>,
    joined: &mut Joined<F, U, D, N>,
) -> Counted
    ensures result { (result.flushed ≡ account.slip.flushed.count)
        × (result.unflushed ≡ account.slip.unflushed.count)
        × (result.drops ≡ account.slip.drops.count) × (result.accounts ≡ 1) }
    ensures amounts { (joined.new.flushed.amount ≡ joined.old.flushed.amount + result.flushed)
        × (joined.new.unflushed.amount ≡ joined.old.unflushed.amount + result.unflushed)
        × (joined.new.drops.amount ≡ joined.old.drops.amount + result.drops)
        × (joined.new.accounts.amount ≡ joined.old.accounts.amount + 1) }
    ensures parts { (joined.new.flushed.parts ≡ joined.old.flushed.parts + 1)
        × (joined.new.unflushed.parts ≡ joined.old.unflushed.parts + 1)
        × (joined.new.drops.parts ≡ joined.old.drops.parts + 1)
        × (joined.new.accounts.parts ≡ joined.old.accounts.parts + 1) }
    ensures in_range { result.flushed + result.unflushed < 2 ^ 64 }
{
    let Account { slip } = account;
    let LedgerAccount {
        flushed,
        unflushed,
        drops,
        account: own,
    } = slip;
    Counted {
        flushed: join(flushed, &mut joined.flushed),
        unflushed: join(unflushed, &mut joined.unflushed),
        drops: join(drops, &mut joined.drops),
        accounts: join(own, &mut joined.accounts),
    }
}

/// Splits the shares of an account with these counts off again.
fn part_all<F: Ledger, U: Ledger, D: Ledger, N: Ledger + Numbered>(
    joined: &mut Joined<F, U, D, N>,
    one: Counted,
) -> Account<LedgerBook<F, U, D, N>>
    requires one { one.accounts ≡ 1 }
    requires in_range { one.flushed + one.unflushed < 2 ^ 64 }
    requires parts { (0 < joined.old.flushed.parts) × (0 < joined.old.unflushed.parts)
        × (0 < joined.old.drops.parts) × (0 < joined.old.accounts.parts) }
    requires amounts { (one.flushed ≤ joined.old.flushed.amount)
        × (one.unflushed ≤ joined.old.unflushed.amount) × (one.drops ≤ joined.old.drops.amount)
        × (one.accounts ≤ joined.old.accounts.amount) }
    requires last { (joined.old.flushed.parts ≡ 1 → joined.old.flushed.amount ≡ one.flushed)
        × (joined.old.unflushed.parts ≡ 1 → joined.old.unflushed.amount ≡ one.unflushed)
        × (joined.old.drops.parts ≡ 1 → joined.old.drops.amount ≡ one.drops)
        × (joined.old.accounts.parts ≡ 1 → joined.old.accounts.amount ≡ one.accounts) }
    ensures result { (result.slip.flushed.count ≡ one.flushed)
        × (result.slip.unflushed.count ≡ one.unflushed) × (result.slip.drops.count ≡ one.drops) }
    ensures amounts { (joined.new.flushed.amount + one.flushed ≡ joined.old.flushed.amount)
        × (joined.new.unflushed.amount + one.unflushed ≡ joined.old.unflushed.amount)
        × (joined.new.drops.amount + one.drops ≡ joined.old.drops.amount)
        × (joined.new.accounts.amount + one.accounts ≡ joined.old.accounts.amount) }
    ensures parts { (joined.new.flushed.parts + 1 ≡ joined.old.flushed.parts)
        × (joined.new.unflushed.parts + 1 ≡ joined.old.unflushed.parts)
        × (joined.new.drops.parts + 1 ≡ joined.old.drops.parts)
        × (joined.new.accounts.parts + 1 ≡ joined.old.accounts.parts) }
{
    let slip = LedgerAccount {
        flushed: part(&mut joined.flushed, one.flushed),
        unflushed: part(&mut joined.unflushed, one.unflushed),
        drops: part(&mut joined.drops, one.drops),
        account: part(&mut joined.accounts, one.accounts),
    };
    Account { slip }
}

/// Changes nothing: what was joined is no more than what the book counts.
fn audit_joined<F: Ledger, U: Ledger, D: Ledger, N: Ledger + Numbered>(
    book: &mut LedgerBook<F, U, D, N>,
    joined: &mut Joined<F, U, D, N>,
)
    ensures book { (book.new.flushed.count ≡ book.old.flushed.count)
        × (book.new.unflushed.count ≡ book.old.unflushed.count)
        × (book.new.drops.count ≡ book.old.drops.count)
        × (book.new.accounts.count ≡ book.old.accounts.count) }
    ensures amounts { (joined.new.flushed.amount ≡ joined.old.flushed.amount)
        × (joined.new.unflushed.amount ≡ joined.old.unflushed.amount)
        × (joined.new.drops.amount ≡ joined.old.drops.amount)
        × (joined.new.accounts.amount ≡ joined.old.accounts.amount) }
    ensures parts { (joined.new.flushed.parts ≡ joined.old.flushed.parts)
        × (joined.new.unflushed.parts ≡ joined.old.unflushed.parts)
        × (joined.new.drops.parts ≡ joined.old.drops.parts)
        × (joined.new.accounts.parts ≡ joined.old.accounts.parts) }
    ensures within { (joined.old.flushed.amount ≤ book.old.flushed.count)
        × (joined.old.unflushed.amount ≤ book.old.unflushed.count)
        × (joined.old.drops.amount ≤ book.old.drops.count)
        × (joined.old.accounts.amount ≤ book.old.accounts.count) }
    ensures backed { (joined.old.flushed.parts ≡ 0 → joined.old.flushed.amount ≡ 0)
        × (joined.old.unflushed.parts ≡ 0 → joined.old.unflushed.amount ≡ 0)
        × (joined.old.drops.parts ≡ 0 → joined.old.drops.amount ≡ 0)
        × (joined.old.accounts.parts ≡ 0 → joined.old.accounts.amount ≡ 0) }
    ensures in_range { book.old.drops.count < 2 ^ 64 }
{
    let LedgerBook {
        flushed,
        unflushed,
        drops,
        accounts,
    } = book;
    flushed.audit(&mut joined.flushed);
    unflushed.audit(&mut joined.unflushed);
    drops.audit(&mut joined.drops);
    accounts.audit(&mut joined.accounts);
}

/// Adds up what the accounts count. With what was joined before it is no more than what the book counts.
fn add_up<F: Ledger, U: Ledger, D: Ledger, N: Ledger + Numbered>(
    book: &mut LedgerBook<F, U, D, N>,
    accounts: &mut Vec<Account<LedgerBook<F, U, D, N>>>,
    joined: &mut Joined<F, U, D, N>,
) -> Counted
    ensures book { (book.new.flushed.count ≡ book.old.flushed.count)
        × (book.new.unflushed.count ≡ book.old.unflushed.count)
        × (book.new.drops.count ≡ book.old.drops.count)
        × (book.new.accounts.count ≡ book.old.accounts.count) }
    ensures amounts { (joined.new.flushed.amount ≡ joined.old.flushed.amount)
        × (joined.new.unflushed.amount ≡ joined.old.unflushed.amount)
        × (joined.new.drops.amount ≡ joined.old.drops.amount)
        × (joined.new.accounts.amount ≡ joined.old.accounts.amount) }
    ensures parts { (joined.new.flushed.parts ≡ joined.old.flushed.parts)
        × (joined.new.unflushed.parts ≡ joined.old.unflushed.parts)
        × (joined.new.drops.parts ≡ joined.old.drops.parts)
        × (joined.new.accounts.parts ≡ joined.old.accounts.parts) }
    ensures same { (map (λ a. a.slip.flushed.count) accounts.new.items
        ≡ map (λ a. a.slip.flushed.count) accounts.old.items)
        × (map (λ a. a.slip.unflushed.count) accounts.new.items
        ≡ map (λ a. a.slip.unflushed.count) accounts.old.items)
        × (map (λ a. a.slip.drops.count) accounts.new.items
        ≡ map (λ a. a.slip.drops.count) accounts.old.items) }
    ensures room { vec_capacity accounts.new ≡ vec_capacity accounts.old }
    ensures flushed { result.flushed ≡ sum_by (λ a. a.slip.flushed.count) accounts.old.items }
    ensures unflushed { result.unflushed ≡ sum_by (λ a. a.slip.unflushed.count) accounts.old.items }
    ensures drops { result.drops ≡ sum_by (λ a. a.slip.drops.count) accounts.old.items }
    ensures accounts { result.accounts ≡ vec_len accounts.old }
    ensures within { (joined.old.flushed.amount + result.flushed ≤ book.old.flushed.count)
        × (joined.old.unflushed.amount + result.unflushed ≤ book.old.unflushed.count)
        × (joined.old.drops.amount + result.drops ≤ book.old.drops.count)
        × (joined.old.accounts.amount + result.accounts ≤ book.old.accounts.count) }
{
    audit_joined(book, joined);
    let Some(account) = accounts.pop() else {
        return Counted {
            flushed: 0,
            unflushed: 0,
            drops: 0,
            accounts: 0,
        };
    };
    let one = join_all(account, joined);
    let rest = add_up(book, accounts, joined);
    accounts.push_reserved(part_all(joined, one));
    Counted {
        flushed: rest.flushed + one.flushed,
        unflushed: rest.unflushed + one.unflushed,
        drops: rest.drops + one.drops,
        accounts: rest.accounts + 1,
    }
}

impl<F: Ledger, U: Ledger, D: Ledger, N: Ledger + Numbered> LedgerBook<F, U, D, N> {
    /// Empty shares of the book's ledgers.
    fn none_joined(&mut self) -> Joined<F, U, D, N>
        ensures book { (self.new.flushed.count ≡ self.old.flushed.count)
            × (self.new.unflushed.count ≡ self.old.unflushed.count)
            × (self.new.drops.count ≡ self.old.drops.count)
            × (self.new.accounts.count ≡ self.old.accounts.count) }
        ensures amounts { (result.flushed.amount ≡ 0) × (result.unflushed.amount ≡ 0)
            × (result.drops.amount ≡ 0) × (result.accounts.amount ≡ 0) }
    {
        Joined {
            flushed: self.flushed.empty_share(),
            unflushed: self.unflushed.empty_share(),
            drops: self.drops.empty_share(),
            accounts: self.accounts.empty_share(),
        }
    }

    /// What the book counts.
    fn counted(&self) -> Counted
        ensures counts { (result.flushed ≡ self.now.flushed.count)
            × (result.unflushed ≡ self.now.unflushed.count) × (result.drops ≡ self.now.drops.count)
            × (result.accounts ≡ self.now.accounts.count) }
        ensures in_range { result.flushed + result.unflushed < 2 ^ 64 }
    {
        Counted {
            flushed: self.flushed.count(),
            unflushed: self.unflushed.count(),
            drops: self.drops.count(),
            accounts: self.accounts.count(),
        }
    }
}

impl<F: Ledger, U: Ledger, D: Ledger, N: Ledger + Numbered> SharedBook for LedgerBook<F, U, D, N> {
    ghost is_shared = { refl };

    fn totals(&self) -> Totals {
        let whole = self.counted();
        Totals {
            messages: whole.flushed + whole.unflushed,
            drops: whole.drops,
            flushed: whole.flushed,
        }
    }

    fn sum_of(&mut self, accounts: &mut Vec<Account<Self>>) -> Totals {
        let mut joined = self.none_joined();
        let sum = add_up(self, accounts, &mut joined);
        let _whole = self.counted();
        Totals {
            messages: sum.flushed + sum.unflushed,
            drops: sum.drops,
            flushed: sum.flushed,
        }
    }
}

//! How a desk keeps its book: what went through it, and through each tracee's account.

ghost use Rattle.std.specs.Prelude.{◌≡◌, ◌+◌, ◌<◌, ◌≤◌, ◌^◌, ℕ, Bool, false, IsTrue};
ghost use Rattle.tracees.specs.declared.book.Totals.{Totals};

/// Messages, messages that were dropped, and messages that were flushed.
#[derive(Clone, Copy, Debug, PartialEq, Eq)]
pub struct Totals {
    pub messages: u64,
    pub drops: u64,
    /// Of an account: the messages that it had at the last `flush_for` that answered Ok.
    pub flushed: u64,
}

/// How a desk keeps its book.
pub trait Bookkeeping: Send + Drop {
    /// What a tracee's account holds.
    type Slip: Send + Drop;

    ghost use Rattle.tracees.specs.Books.{totals, no_totals, all_flushed, IsWithin};

    /// What the book counts.
    ghost totals_of: { Self → Totals };

    /// How many accounts were opened.
    ghost attached_of: { Self → ℕ };

    /// What an account counts.
    ghost sums_of: { Self.Slip → Totals };

    /// Whether each account is a share of its book by its type, so that no account counts more than the book.
    ghost shared: { Bool };

    /// The number of the desk of a book whose accounts are shares.
    ghost desk: { ℕ };

    /// Opens an account.
    fn open(&mut self) -> Self::Slip
        requires { attached_of self.old < 4294967295 }
        ensures attached { attached_of self.new ≡ attached_of self.old + 1 }
        ensures totals { totals_of self.new ≡ totals_of self.old }
        ensures empty { sums_of result ≡ no_totals };

    /// How many accounts were opened.
    fn attached(&self) -> u32
        ensures { result ≡ attached_of self.now };

    /// Counts messages and drops, in the book and in an account of it.
    fn note(&mut self, slip: &mut Self::Slip, messages: u64, drops: u64)
        requires messages { (totals_of self.old).messages + messages < 2 ^ 64 }
        requires drops { (totals_of self.old).drops + drops < 2 ^ 64 }
        requires account_messages { (sums_of slip.old).messages + messages < 2 ^ 64 }
        requires account_drops { (sums_of slip.old).drops + drops < 2 ^ 64 }
        ensures totals { totals_of self.new
            ≡ totals ((totals_of self.old).messages + messages) ((totals_of self.old).drops + drops)
            (totals_of self.old).flushed }
        ensures sums { sums_of slip.new ≡ totals ((sums_of slip.old).messages + messages)
            ((sums_of slip.old).drops + drops) (sums_of slip.old).flushed }
        ensures attached { attached_of self.new ≡ attached_of self.old }
        ensures within { IsTrue shared → IsWithin (sums_of slip.old) (totals_of self.old) };

    /// Counts all messages of the account as flushed.
    fn flush_account(&mut self, slip: &mut Self::Slip)
        ensures messages { (totals_of self.new).messages ≡ (totals_of self.old).messages }
        ensures drops { (totals_of self.new).drops ≡ (totals_of self.old).drops }
        ensures flushed { (totals_of self.new).flushed ≤ (totals_of self.new).messages }
        ensures exact { IsTrue shared → (totals_of self.new).flushed + (sums_of slip.old).flushed
            ≡ (totals_of self.old).flushed + (sums_of slip.old).messages }
        ensures sums { sums_of slip.new ≡ all_flushed (sums_of slip.old) }
        ensures attached { attached_of self.new ≡ attached_of self.old };

    /// What an account counts.
    fn sums(slip: &Self::Slip) -> Totals
        ensures { result ≡ sums_of slip.now };
}

/// A book of plain counts, which doesn't tell how many messages were flushed.
#[derive(Drop)]
pub struct PlainBook {
    attached: u32,
    messages: u64,
    drops: u64,
}

/// An account of plain counts.
#[derive(Drop)]
pub struct PlainAccount {
    messages: u64,
    drops: u64,
    flushed: u64,
}

impl PlainBook {
    ghost use Rattle.tracees.specs.Books.{no_totals};

    /// A book in which nothing is counted and no account was opened.
    pub fn new() -> PlainBook
        ensures totals { ⟦<PlainBook as Bookkeeping>⟧.totals_of result ≡ no_totals }
        ensures attached { ⟦<PlainBook as Bookkeeping>⟧.attached_of result ≡ 0 }
    {
        PlainBook {
            attached: 0,
            messages: 0,
            drops: 0,
        }
    }
}

impl Bookkeeping for PlainBook {
    type Slip = PlainAccount;

    ghost use Rattle.tracees.specs.Books.{plain_totals, plain_sums};

    ghost totals_of = { plain_totals };

    ghost attached_of = { λ book. book.attached };

    ghost sums_of = { plain_sums };

    ghost shared = { false };

    ghost desk = { 0 };

    fn open(&mut self) -> PlainAccount {
        self.attached += 1;
        PlainAccount {
            messages: 0,
            drops: 0,
            flushed: 0,
        }
    }

    fn attached(&self) -> u32 {
        self.attached
    }

    fn note(&mut self, slip: &mut PlainAccount, messages: u64, drops: u64) {
        self.messages += messages;
        self.drops += drops;
        slip.messages += messages;
        slip.drops += drops;
    }

    fn flush_account(&mut self, slip: &mut PlainAccount) {
        slip.flushed = slip.messages;
    }

    fn sums(slip: &PlainAccount) -> Totals {
        Totals {
            messages: slip.messages,
            drops: slip.drops,
            flushed: slip.flushed,
        }
    }
}

//! A plain listing, of which the entries that are opaque are counted.
ghost use Rattle.std.specs.Prelude.{◌≡◌};

use crate::listing::Listable;
use crate::outlet::{Output, taken};
use command_line::Shown;
use faults::Complaint;
use std::alloc::Global;
use std::fmt;
use std::io::{self, Read, Write};
use std::sync::Wait;

/// The longest number of an entry with the word of its kind, in a line or an object.
const HEAD: usize = 48;

/// What an object of an entry begins with.
const OBJECT: &[u8] = b"{\"n\":";

/// How many entries are listed, and how many of them as opaque.
#[derive(Clone, Copy)]
struct Sight {
    entries: u64,
    opaque: u64,
}

/// A number with commas between its thousands.
#[derive(Clone, Copy)]
struct Grouped(u64);

/// The units that a comma stands after, the greatest first, and one.
const UNITS: [u64; 7] = [
    1_000_000_000_000_000_000,
    1_000_000_000_000_000,
    1_000_000_000_000,
    1_000_000_000,
    1_000_000,
    1_000,
    1,
];

impl fmt::Display for Grouped {
    fn fmt<W: fmt::Write>(&self, f: &mut fmt::Formatter<W>) -> fmt::Result {
        let mut has_begun = false;
        for unit in UNITS {
            let part = self.0 / unit % 1_000;
            if has_begun {
                let (hundreds, tens, ones) = (part / 100, part / 10 % 10, part % 10);
                write!(f, ",{hundreds}{tens}{ones}")?;
            } else if part > 0 || unit == 1 {
                write!(f, "{part}")?;
                has_begun = true;
            }
        }
        Ok(())
    }
}

impl fmt::Display for Sight {
    fn fmt<W: fmt::Write>(&self, f: &mut fmt::Formatter<W>) -> fmt::Result {
        let (opaque, entries) = (Grouped(self.opaque), Grouped(self.entries));
        match self.opaque {
            1 => write!(f, "1 of {entries} entries is opaque here: -p shows it"),
            _ => write!(
                f,
                "{opaque} of {entries} entries are opaque here: -p shows them"
            ),
        }
    }
}

/// What follows the number of an entry in its line or its object; None where a line has no number.
pub fn kind_in(head: &[u8]) -> Option<&[u8]> {
    let numbered = head.strip_prefix(OBJECT).unwrap_or(head);
    let end = numbered.iter().position(|byte| !byte.is_ascii_digit())?;
    if end == 0 {
        return None;
    }
    Some(&numbered[end..])
}

/// Whether a line or an object is a drop record's, by what follows its number.
pub fn is_drop(kind: &[u8]) -> bool {
    kind.starts_with(b" drop ") || kind.starts_with(b",\"kind\":\"drop\"")
}

/// What is counted of the lines that pass.
#[derive(Drop)]
struct Tally {
    /// Each is counted, and not only up to the first message.
    is_on: bool,
    sight: Sight,
    /// An entry is listed that is no drop record.
    has_message: bool,
    /// An empty line came, which ends the listing.
    is_over: bool,
    /// What the line began with that isn't at its end.
    head: [u8; HEAD],
    length: usize,
}

impl Tally {
    fn new(is_on: bool) -> Tally {
        Tally {
            is_on,
            sight: Sight {
                entries: 0,
                opaque: 0,
            },
            has_message: false,
            is_over: false,
            head: [0; HEAD],
            length: 0,
        }
    }

    /// Counts the entry of the line that ends, if it is one's; an empty line ends the listing.
    fn end_line(&mut self) {
        let head = &self.head[..self.length.min(HEAD)];
        self.is_over = self.is_over || head.is_empty();
        if let Some(kind) = kind_in(head) {
            let is_opaque = kind.starts_with(b" opaque ");
            self.has_message = self.has_message || !is_drop(kind);
            self.sight.entries = self.sight.entries.saturating_add(1);
            self.sight.opaque = self.sight.opaque.saturating_add(u64::from(is_opaque));
        }
        self.length = 0;
    }

    /// Keeps what a line begins with.
    fn go_on(&mut self, part: &[u8]) {
        for byte in part {
            if self.length >= HEAD {
                return;
            }
            self.head[self.length] = *byte;
            self.length += 1;
        }
    }

    /// Counts the entries whose lines end in these bytes.
    fn note(&mut self, bytes: &[u8]) {
        let mut is_new = false;
        for part in bytes.split(|byte| *byte == b'\n') {
            if is_new {
                self.end_line();
            }
            is_new = true;
            self.go_on(part);
        }
    }
}

/// A writer that counts the entries whose lines pass.
#[derive(Drop)]
struct Counting<W: Write> {
    out: W,
    tally: Tally,
}

impl<W: Write> Write for Counting<W> {
    ghost contents = { λ counting. W.contents counting.out };

    #[inline(always)]
    fn write(&mut self, bytes: &[u8]) -> io::Result<usize> {
        let count = self.out.write(bytes)?;
        if self.tally.is_on || !self.tally.has_message {
            self.tally.note(&bytes[..count]);
        }
        Ok(count)
    }

    fn flush(&mut self) -> io::Result<()> {
        self.out.flush()
    }
}

impl<W: Output> Output for Counting<W> {
    fn none(alloc: Global) -> Counting<W> {
        Counting {
            out: W::none(alloc),
            tally: Tally::new(false),
        }
    }
}

/// The writer below, and what was counted.
fn ended<W: Write>(counting: Counting<W>) -> (W, Tally)
    ensures { result.0 ≡ counting.out }
{
    (counting.out, counting.tally)
}

/// What is left of a listing that was counted.
pub struct CountedLeft<L> {
    pub left: L,
    /// An entry was listed that is no drop record.
    pub has_message: bool,
}

/// A listing, at whose end standard error tells how many of its entries are opaque, where that is asked for.
pub struct Counted<S> {
    rt: HostRuntime,
    listing: S,
    is_on: bool,
}

impl<S: Listable> Counted<S> {
    /// A listing whose chosen entries are counted where `is_on` is true.
    pub fn new(rt: &HostRuntime, listing: S, is_on: bool) -> Counted<S>
        ensures { result.listing ≡ listing }
    {
        Counted {
            rt: *rt,
            listing,
            is_on,
        }
    }
}

impl<S: Listable> Listable for Counted<S> {
    type Left = CountedLeft<S::Left>;

    ghost lists = { λ listed shown had counted. S.lists listed.listing shown had counted.left };

    fn list<R: Wait, I: Read + Drop, W: Output>(
        self,
        waiter: &R,
        shown: &Shown,
        input: I,
        output: &mut W,
    ) -> (Result<(), Complaint>, CountedLeft<S::Left>) {
        let Counted { rt, listing, is_on } = self;
        let mut counting = Counting {
            out: taken(rt.alloc(), output),
            tally: Tally::new(is_on),
        };
        let (done, left) = listing.list(waiter, shown, input, &mut counting);
        let (out, tally) = ended(counting);
        *output = out;
        let sight = tally.sight;
        if is_on && (done.is_ok() || tally.is_over) && sight.opaque > 0 {
            let _ = eprintln!(rt; "dbgrec: {sight}");
        }
        let has_message = tally.has_message;
        (done, CountedLeft { left, has_message })
    }

    fn is_new(&self) -> bool {
        self.listing.is_new()
    }

    fn tell_unshown(rt: &HostRuntime, counted: &CountedLeft<S::Left>, shown: &Shown) {
        S::tell_unshown(rt, &counted.left, shown);
    }
}

//! A writer that hands on a text up to an empty line.
ghost use Rattle.std.specs.Prelude.{◌≡◌, ◌≤◌, ◌<◌, ℕ, true, false, Option, Some, None, List, [], ◌∷◌, ◌++◌, ◌==◌, take, length, IsErr, IfOk, OnErr, MatchOption};
ghost use Rattle.std.specs.Io.{WritesAtMost, KnownBytes.Appends, KnownBytes.Keeps, KnownBytes.WriteAppends};
ghost use Rattle.shown_listings.specs.{Ends.has_empty, Ends.before_empty, Ends.is_fresh_behind, Ends.end_contents, Growth.Appends-prop};

use crate::given::Given;
use std::io::{self, ErrorKind, Write};

/// The end of a line.
const FEED: u8 = b'\n';

/// Hands on what it is given, up to an empty line: that ends a listing, and isn't handed on itself. After it a write, and a
/// flush, is refused.
#[derive(Drop)]
pub struct EndWriter<W: Write> {
    pub out: W,
    /// What comes next begins a line.
    is_fresh: bool,
    /// An empty line came.
    pub is_ended: bool,
    pub given: Given,
    pub ghost fresh: { is_fresh ≡ is_fresh_behind true given.bytes },
    pub ghost ended: { is_ended ≡ has_empty true given.bytes },
    pub ghost held: { Appends given.start (W.contents out) (before_empty true given.bytes) } by { Appends-prop given.start (W.contents out) (before_empty true given.bytes) },
}

/// How many bytes come before the line feed of the first empty line; None where no empty line ends in these bytes.
fn find_end(is_fresh: bool, bytes: &[u8]) -> Option<usize>
    ensures { MatchOption result (has_empty is_fresh bytes.now ≡ false)
        (λ count. (count < length bytes.now)
        × (take count bytes.now ≡ before_empty is_fresh bytes.now)
        × (has_empty is_fresh bytes.now ≡ true)) }
{
    let mut is_fresh = is_fresh;
    for (index, byte) in bytes.iter().enumerate() {
        let is_feed = *byte == FEED;
        if is_fresh && is_feed {
            return Some(index);
        }
        is_fresh = is_feed;
    }
    None
}

/// Whether the byte that follows these begins a line.
fn is_fresh_after(is_fresh: bool, bytes: &[u8]) -> bool
    ensures { result ≡ is_fresh_behind is_fresh bytes.now }
{
    match bytes.last() {
        Some(byte) => *byte == FEED,
        None => is_fresh,
    }
}

impl<W: Write> EndWriter<W> {
    /// A writer that hands on to `out`.
    pub fn new(out: W) -> EndWriter<W>
        ghost start: { Option (List ℕ) }
        requires { start ≡ W.contents out }
        ensures start { result.given.start ≡ W.contents out }
        ensures none { result.given.bytes ≡ [] }
        ensures out { result.out ≡ out }
    {
        EndWriter {
            out,
            is_fresh: true,
            is_ended: false,
            given: Given::new(),
        }
    }

    /// Notes the line feed of an empty line, which isn't handed on.
    fn end(&mut self)
        requires fresh { self.old.is_fresh ≡ true }
        requires goes_on { self.old.is_ended ≡ false }
        ensures given { self.new.given ≡ record self.old.given
            { bytes = self.old.given.bytes ++ 10 ∷ [] } }
    {
        self.is_ended = true;
        self.given.note(&[FEED]);
    }

    /// Hands on bytes in which no empty line ends.
    fn hand_on(&mut self, bytes: &[u8]) -> io::Result<usize>
        requires goes_on { self.old.is_ended ≡ false }
        requires none { has_empty self.old.is_fresh bytes.now ≡ false }
        ensures bound { WritesAtMost result bytes.now }
        ensures ok { IfOk result (λ count. self.new.given
            ≡ record self.old.given { bytes = self.old.given.bytes ++ take count bytes.now }) }
        ensures err { OnErr result (self.new.given ≡ self.old.given) }
    {
        let count = self.out.write(bytes)?;
        let taken = &bytes[..count];
        self.is_fresh = is_fresh_after(self.is_fresh, taken);
        self.given.note(taken);
        Ok(count)
    }
}

impl<W: Write> Write for EndWriter<W> {
    ghost contents = { λ writer. end_contents writer.given.start writer.given.bytes };

    fn write(&mut self, bytes: &[u8]) -> io::Result<usize>
        ensures bound { WritesAtMost result bytes.now }
        ensures bytes { WriteAppends (end_contents self.old.given.start self.old.given.bytes)
            (end_contents self.new.given.start self.new.given.bytes) result bytes.now }
        ensures ended { self.old.is_ended ≡ true → IsErr result }
    {
        if self.is_ended {
            return Err(io::Error::from(ErrorKind::BrokenPipe));
        }
        if bytes.is_empty() {
            return Ok(0);
        }
        match find_end(self.is_fresh, bytes) {
            Some(0) => {
                self.end();
                Ok(1)
            }
            Some(count) => self.hand_on(&bytes[..count]),
            None => self.hand_on(bytes),
        }
    }

    fn flush(&mut self) -> io::Result<()>
        ensures stay { Keeps (end_contents self.old.given.start self.old.given.bytes)
            (end_contents self.new.given.start self.new.given.bytes) }
        ensures ended { self.old.is_ended ≡ true → IsErr result }
    {
        self.out.flush()?;
        if self.is_ended {
            return Err(io::Error::from(ErrorKind::BrokenPipe));
        }
        Ok(())
    }
}

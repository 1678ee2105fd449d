//! A writer that lays out a listing for a person.
ghost use Rattle.std.specs.Prelude.{◌≡◌, ◌≤◌, ◌<◌, ◌+◌, ◌++◌, ◌∷◌, ℕ, true, false, None, Option, List, [], length, take, drop, OnOk, OnErr, IfSome, MatchOption, IsOk, is_some, ◌&&◌};
ghost use Rattle.shown_listings.specs.Since.{IsEnough};
ghost use Rattle.std.specs.Io.{WritesAtMost, KnownBytes.Keeps, KnownBytes.WriteAppends};
ghost use Rattle.shown_listings.specs.{Rows.AreHeld, Rows.AreLines, Rows.AreLines-prop, Rows.Sends, Rows.Sends-prop, Rows.SendsNone, Rows.SendsNone-prop, Rows.ShowsRows, Rows.HasNoFeed, Rows.text_of_rows, Rows.rows_in, Rows.given_lines, Rows.laid_contents};

use crate::ahead::LookingAhead;
use crate::given::Given;
use crate::held::{held_behind, hold};
use crate::look::Look;
use crate::noted::Noted;
use crate::rows::Rows;
use crate::sending::{Unsent, send_held};
use crate::since::{has_enough, rows_since};
use crate::zone::Zone;
use std::alloc::{AllocError, Global};
use std::collections::VecDeque;
use std::io::{self, ErrorKind, Write};

/// The end of a line.
const FEED: u8 = b'\n';

/// How the rows of a listing ended.
#[derive(Clone, Copy)]
pub enum RowsEnd {
    /// All of them are written.
    Written,
    /// They couldn't be.
    Unwritten,
    /// There was no memory for one.
    NoMemory,
}

/// Has a writer write out what it was given, unless that failed.
fn written_out<W: Write>(sent: io::Result<()>, out: &mut W) -> io::Result<()>
    ensures well { IsOk result → IsOk sent }
    ensures kept { Keeps (W.contents out.old) (W.contents out.new) }
{
    sent?;
    out.flush()
}

/// How rows ended, by whether there was memory for each and by how the last were written out.
fn end_of(is_out_of_memory: bool, sent: io::Result<()>) -> RowsEnd
    ensures written { result ≡ RowsEnd.Written → IsOk sent }
    ensures memory { is_out_of_memory ≡ true → result ≡ RowsEnd.NoMemory }
    ensures sent { is_out_of_memory ≡ false → IsOk sent → result ≡ RowsEnd.Written }
{
    if is_out_of_memory {
        RowsEnd::NoMemory
    } else if sent.is_ok() {
        RowsEnd::Written
    } else {
        RowsEnd::Unwritten
    }
}

/// Takes a listing as objects, and writes a row for each line.
#[derive(Drop)]
pub struct LaidOut<W: Write> {
    pub out: W,
    pub look: Look,
    rows: Rows,
    /// What came of a line that hasn't come whole.
    pub line: Vec<u8>,
    /// The last row that was begun.
    unsent: Unsent,
    /// The rows behind it.
    held: VecDeque<Vec<u8>>,
    /// How many of these are held back at most, where they are.
    most: Option<u32>,
    /// How many rows came since a line of the entry from which on is listed, or one behind it.
    since: Option<u64>,
    /// It takes nothing more: there was no memory for a row, or fewer came than are asked for.
    is_over: bool,
    pub written: Given,
    pub lines: Noted,
    laid: Noted,
    pub ghost lines_whole: { AreLines lines.items line.items } by { AreLines-prop lines.items line.items },
    pub ghost rows_each: { ∥ AreHeld most since look.rule lines.items (laid.items ++ rows_in held.items) ∥₁ },
    pub ghost sends_none: { SendsNone most laid.items } by { SendsNone-prop most laid.items },
    pub ghost sends: { Sends (W.contents out) written (drop unsent.taken unsent.bytes.items) (text_of_rows laid.items) } by { Sends-prop (W.contents out) written (drop unsent.taken unsent.bytes.items) (text_of_rows laid.items) },
}

/// The rows, or where there was no memory for them some that nothing is made of; and whether there was none.
fn rows_or_none(alloc: Global, rows: Result<Rows, AllocError>) -> (Rows, bool) {
    match rows {
        Ok(rows) => (rows, false),
        Err(AllocError) => (Rows::new(alloc, Zone::Utc, None, None), true),
    }
}

impl<W: Write> LaidOut<W> {
    /// A writer that nothing came to. Where there was no memory for its rows, it takes nothing.
    pub fn new(alloc: Global, out: W, look: Look, rows: Result<Rows, AllocError>) -> LaidOut<W>
        ghost start: { Option (List ℕ) }
        requires { start ≡ W.contents out }
        ensures start { result.written.start ≡ W.contents out }
        ensures lines { result.lines.items ≡ [] }
        ensures line { result.line.items ≡ [] }
        ensures look { result.look ≡ look }
    {
        let (rows, is_over) = rows_or_none(alloc, rows);
        LaidOut {
            out,
            look,
            rows,
            line: Vec::new(alloc),
            unsent: Unsent {
                bytes: Vec::new(alloc),
                taken: 0,
            },
            held: VecDeque::new(alloc),
            most: look.rule.last,
            since: None,
            is_over,
            written: Given::new(),
            lines: Noted::new(),
            laid: Noted::new(),
        }
    }

    /// Whether a message has a row.
    pub fn has_shown(&self) -> bool {
        self.rows.has_shown()
    }

    /// Whether rows are held back that were sought from an entry on: not enough came, or not the end.
    fn is_withheld(&self) -> bool
        ensures { result ≡ (is_some self.now.most && is_some self.now.look.rule.first) }
    {
        self.most.is_some() && self.look.rule.first.is_some()
    }

    /// Writes out what is left of the rows, and tells how they ended. Those that are withheld aren't written.
    pub fn end(self) -> (RowsEnd, W)
        ensures { ShowsRows self.look.rule (result.0 ≡ RowsEnd.Written) self.lines.items
            self.written.start (W.contents result.1) }
    {
        let is_withheld = self.is_withheld();
        let LaidOut {
            mut out,
            mut unsent,
            mut held,
            is_over,
            mut written,
            mut laid,
            ..
        } = self;
        if is_withheld {
            return (RowsEnd::Unwritten, out);
        }
        let sent = send_held(&mut out, &mut unsent, &mut held, &mut written, &mut laid);
        let flushed = written_out(sent, &mut out);
        let end = end_of(is_over, flushed);
        (end, out)
    }

    /// Writes the rows that aren't held back.
    fn send(&mut self) -> io::Result<()>
        ensures look { self.new.look ≡ self.old.look }
        ensures line { self.new.line ≡ self.old.line }
        ensures lines { self.new.lines ≡ self.old.lines }
        ensures start { self.new.written.start ≡ self.old.written.start }
    {
        if self.most.is_some() {
            return Ok(());
        }
        send_held(
            &mut self.out,
            &mut self.unsent,
            &mut self.held,
            &mut self.written,
            &mut self.laid,
        )
    }

    /// Whether a row was told how long it came after the first, and that isn't the first that is asked for.
    fn is_told_apart(&self) -> bool {
        self.look.rule.first.is_some() && self.rows.are_since_first(&self.look)
    }

    /// Whether the rows that are held back may be shown: enough came, and each is what it is behind all others.
    fn has_enough(&self) -> bool
        ensures { result ≡ true → IfSome self.now.most
            (IsEnough self.now.look.rule.first self.now.since) }
    {
        has_enough(self.most, self.look.rule.first, self.since) && !self.is_told_apart()
    }

    /// Where what comes from now on is shown too, no row is held back any more, once enough came.
    fn let_out(&mut self)
        ensures look { self.new.look ≡ self.old.look }
        ensures line { self.new.line ≡ self.old.line }
        ensures lines { self.new.lines ≡ self.old.lines }
        ensures start { self.new.written.start ≡ self.old.written.start }
    {
        if self.look.rule.follows && self.has_enough() {
            self.most = None;
        }
    }

    /// Takes more of a line.
    fn go_on(&mut self, more: &[u8]) -> Result<(), AllocError>
        requires no_feed { HasNoFeed more.now }
        ensures look { self.new.look ≡ self.old.look }
        ensures start { self.new.written.start ≡ self.old.written.start }
        ensures ok { OnOk result (given_lines self.new.lines.items self.new.line.items
            ≡ given_lines self.old.lines.items self.old.line.items ++ more.now) }
        ensures err { OnErr result ((self.new.lines ≡ self.old.lines)
            × (self.new.line.items ≡ self.old.line.items)) }
    {
        self.line.extend_from_slice(more)
    }

    /// Whether rows are held no more behind a line, though too few came.
    fn is_short(&self, most: Option<u32>) -> bool
        ensures { result ≡ false → most ≡ None → IfSome self.now.most
            (IsEnough self.now.look.rule.first self.now.since) }
    {
        most.is_none() && !self.has_enough()
    }

    /// Makes the row of the line that came. The last line of a listing is refused where too few rows came before.
    fn lay(&mut self) -> io::Result<()>
        ensures look { self.new.look ≡ self.old.look }
        ensures start { self.new.written.start ≡ self.old.written.start }
        ensures line { self.new.line ≡ self.old.line }
        ensures ok { OnOk result (self.new.lines.items
            ≡ self.old.lines.items ++ self.old.line.items ∷ []) }
        ensures err { OnErr result (self.new.lines ≡ self.old.lines) }
    {
        let row = self.rows.row_of(&self.look, &self.line)?;
        let most = held_behind(&self.line, self.most);
        if self.is_short(most) {
            return Err(io::Error::from(ErrorKind::InvalidInput));
        }
        let more = u64::from(row.is_some());
        let since = rows_since(self.look.rule.first, self.since, &self.line, more);
        hold(&mut self.held, row, most)?;
        self.most = most;
        self.since = since;
        self.lines.note(&self.line);
        Ok(())
    }

    /// Takes the rest of a line, and makes its row.
    fn end_line(&mut self, rest: &[u8]) -> io::Result<()>
        requires { HasNoFeed rest.now }
        ensures look { self.new.look ≡ self.old.look }
        ensures start { self.new.written.start ≡ self.old.written.start }
        ensures ok { OnOk result (given_lines self.new.lines.items self.new.line.items
            ≡ given_lines self.old.lines.items self.old.line.items ++ (rest.now ++ 10 ∷ [])) }
        ensures err { OnErr result ((self.new.lines ≡ self.old.lines)
            × (self.new.line.items ≡ self.old.line.items)) }
    {
        let before = self.line.len();
        self.line.extend_from_slice(rest)?;
        match self.lay() {
            Ok(()) => {
                self.line.clear();
                Ok(())
            }
            Err(fault) => {
                self.line.truncate(before);
                Err(fault)
            }
        }
    }
}

/// How many bytes come before the first line feed; None where there is none.
fn line_end(bytes: &[u8]) -> Option<usize>
    ensures { MatchOption result (HasNoFeed bytes.now) (λ place. (place < length bytes.now)
        × HasNoFeed (take place bytes.now)
        × (take (place + 1) bytes.now ≡ take place bytes.now ++ 10 ∷ [])) }
{
    for (index, byte) in bytes.iter().enumerate() {
        if *byte == FEED {
            return Some(index);
        }
    }
    None
}

impl<W: Write> LaidOut<W> {
    /// Takes bytes up to the end of a line, or all.
    fn take(&mut self, bytes: &[u8]) -> io::Result<usize>
        ensures look { self.new.look ≡ self.old.look }
        ensures bound { WritesAtMost result bytes.now }
        ensures bytes { WriteAppends
            (laid_contents self.old.look.rule self.old.written.start
            (given_lines self.old.lines.items self.old.line.items))
            (laid_contents self.new.look.rule self.new.written.start
            (given_lines self.new.lines.items self.new.line.items)) result bytes.now }
    {
        match line_end(bytes) {
            Some(place) => {
                self.end_line(&bytes[..place])?;
                Ok(place + 1)
            }
            None => {
                self.go_on(bytes)?;
                Ok(bytes.len())
            }
        }
    }
}

impl<W: Write> LookingAhead for LaidOut<W> {
    fn look_ahead(&mut self, bytes: &[u8]) -> Result<(), AllocError> {
        let done = self.rows.look_ahead(bytes);
        if done.is_err() {
            self.is_over = true;
        }
        done
    }

    fn fail(&mut self) {
        self.is_over = true;
    }
}

impl<W: Write> Write for LaidOut<W> {
    ghost contents = { λ laid. laid_contents laid.look.rule laid.written.start (given_lines laid.lines.items laid.line.items) };

    fn write(&mut self, bytes: &[u8]) -> io::Result<usize>
        ensures bound { WritesAtMost result bytes.now }
        ensures bytes { WriteAppends
            (laid_contents self.old.look.rule self.old.written.start
            (given_lines self.old.lines.items self.old.line.items))
            (laid_contents self.new.look.rule self.new.written.start
            (given_lines self.new.lines.items self.new.line.items)) result bytes.now }
        ensures look { self.new.look ≡ self.old.look }
    {
        if self.is_over {
            return Err(io::Error::from(ErrorKind::OutOfMemory));
        }
        self.send()?;
        match self.take(bytes) {
            Ok(count) => Ok(count),
            Err(reason) => {
                self.is_over = true;
                Err(reason)
            }
        }
    }

    fn flush(&mut self) -> io::Result<()>
        ensures stay { Keeps
            (laid_contents self.old.look.rule self.old.written.start
            (given_lines self.old.lines.items self.old.line.items))
            (laid_contents self.new.look.rule self.new.written.start
            (given_lines self.new.lines.items self.new.line.items)) }
    {
        self.let_out();
        self.send()?;
        self.rows.begin();
        self.out.flush()
    }
}

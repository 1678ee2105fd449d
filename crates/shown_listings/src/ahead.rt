//! A writer that holds the first bytes back, so that the one below may look at them before they come to it.
ghost use Rattle.std.specs.Prelude.{◌≡◌, ◌≤◌, ◌++◌, true, false, [], length, drop, OnOk, OnErr, IfOk};
ghost use Rattle.std.specs.Io.{WritesAtMost, KnownBytes.append_known, KnownBytes.Keeps, KnownBytes.WriteAppends};

use crate::outlet::Output;
use std::alloc::{AllocError, Global};
use std::io::{self, ErrorKind, Write};

/// The most bytes that are held back.
const MOST: usize = 1 << 20;

/// A writer that may be shown what is to come to it. What it holds stays the same.
pub trait LookingAhead: Write {
    /// Looks at bytes that are to come.
    fn look_ahead(&mut self, bytes: &[u8]) -> Result<(), AllocError>
        ensures { Self.contents self.new ≡ Self.contents self.old };

    /// There was no memory for what is to come: it takes nothing more.
    fn fail(&mut self)
        ensures { Self.contents self.new ≡ Self.contents self.old };
}

/// Holds the first bytes back, up to a mebibyte, or until they are to be written out. Then the writer below is shown them, and
/// gets them, and all that comes behind them at once.
#[derive(Drop)]
pub struct Ahead<W: LookingAhead> {
    pub out: W,
    pub held: Vec<u8>,
    /// How many of these were handed on.
    pub taken: usize,
    is_holding: bool,
    pub ghost within: { taken ≤ length held.items },
}

/// Gives a writer what is left of these bytes, as far as it takes it.
fn give<W: Write>(out: &mut W, bytes: &[u8], taken: &mut usize) -> io::Result<()>
    requires { taken.old ≤ length bytes.now }
    ensures kept { Keeps (append_known (W.contents out.old) (drop taken.old bytes.now))
        (append_known (W.contents out.new) (drop taken.new bytes.now)) }
    ensures within { taken.new ≤ length bytes.now }
    ensures all { OnOk result (length bytes.now ≤ taken.new) }
{
    'rest: while *taken < bytes.len() {
        let count = out.write(&bytes[*taken..])?;
        if count == 0 {
            return Err(io::Error::from(ErrorKind::WriteZero));
        }
        *taken += count;
    }
    Ok(())
}

impl<W: LookingAhead> Ahead<W> {
    /// A writer that hands on to `out`, and holds nothing yet.
    pub fn new(alloc: Global, out: W) -> Ahead<W>
        ensures out { result.out ≡ out }
        ensures held { result.held.items ≡ [] }
        ensures taken { result.taken ≡ 0 }
    {
        Ahead {
            out,
            held: Vec::new(alloc),
            taken: 0,
            is_holding: true,
        }
    }

    /// Whether so many bytes more can be held back.
    fn has_room(&self, more: usize) -> bool {
        self.is_holding && self.held.len().saturating_add(more) <= MOST
    }

    /// Holds bytes back. Whether there was room for them.
    fn hold(&mut self, bytes: &[u8]) -> io::Result<bool>
        ensures out { W.contents self.new.out ≡ W.contents self.old.out }
        ensures held { IfOk result (λ is. is ≡ true → drop self.new.taken self.new.held.items
            ≡ drop self.old.taken self.old.held.items ++ bytes.now) }
        ensures same { IfOk result (λ is. is ≡ false → drop self.new.taken self.new.held.items
            ≡ drop self.old.taken self.old.held.items) }
        ensures err { OnErr result (drop self.new.taken self.new.held.items
            ≡ drop self.old.taken self.old.held.items) }
    {
        if !self.has_room(bytes.len()) {
            return Ok(false);
        }
        match self.held.extend_from_slice(bytes) {
            Ok(()) => Ok(true),
            Err(AllocError) => {
                self.out.fail();
                Err(io::Error::from(ErrorKind::OutOfMemory))
            }
        }
    }

    /// Hands on what is held, as far as the writer below takes it.
    pub fn hand_on(&mut self) -> io::Result<()>
        ensures kept { Keeps
            (append_known (W.contents self.old.out) (drop self.old.taken self.old.held.items))
            (append_known (W.contents self.new.out) (drop self.new.taken self.new.held.items)) }
        ensures all { OnOk result (length self.new.held.items ≤ self.new.taken) }
    {
        if self.is_holding {
            self.is_holding = false;
            self.out.look_ahead(&self.held)?;
        }
        give(&mut self.out, &self.held, &mut self.taken)
    }
}

impl<W: LookingAhead> Write for Ahead<W> {
    ghost contents = { λ ahead. append_known (W.contents ahead.out) (drop ahead.taken ahead.held.items) };

    fn write(&mut self, bytes: &[u8]) -> io::Result<usize>
        ensures bound { WritesAtMost result bytes.now }
        ensures bytes { WriteAppends
            (append_known (W.contents self.old.out) (drop self.old.taken self.old.held.items))
            (append_known (W.contents self.new.out) (drop self.new.taken self.new.held.items))
            result bytes.now }
    {
        if self.hold(bytes)? {
            return Ok(bytes.len());
        }
        self.hand_on()?;
        self.out.write(bytes)
    }

    fn flush(&mut self) -> io::Result<()>
        ensures stay { Keeps
            (append_known (W.contents self.old.out) (drop self.old.taken self.old.held.items))
            (append_known (W.contents self.new.out) (drop self.new.taken self.new.held.items)) }
    {
        self.hand_on()?;
        self.out.flush()
    }
}

impl<W: LookingAhead + Output> Output for Ahead<W> {
    fn none(alloc: Global) -> Ahead<W> {
        Ahead::new(alloc, W::none(alloc))
    }
}

//! Standard output.
ghost use Rattle.std.specs.Prelude.{◌≡◌};

use std::alloc::Global;
use std::io::{self, BufWriter, ErrorKind, IsTerminal, Write};
use std::mem;
use std::rt::Stdout;

/// What is written at a time, in bytes.
const BUFFER: usize = 65_536;

/// The same at a terminal, where no line waits for another.
const TERMINAL_BUFFER: usize = 1;

/// What is written to. It can be taken from where it is lent, so that its owner knows what it holds then: what a call did to a
/// struct that was lent a writer is known of the struct's value, and not that it still has the same writer.
pub trait Output: Write + Drop {
    /// A stand-in, which refuses every byte where it has no memory for it; `taken` leaves it where the writer was.
    fn none(alloc: Global) -> Self;
}

/// Takes the writer out of `output`, and leaves one there that refuses each byte.
pub fn taken<W: Output>(alloc: Global, output: &mut W) -> W
    ensures { result ≡ output.old }
{
    mem::replace(output, W::none(alloc))
}

/// Standard output, by a buffer, or nothing where it was taken. A terminal gets each line when it is written. It knows why a
/// write failed.
#[derive(Drop)]
pub struct Outlet {
    inner: Option<BufWriter<Stdout>>,
    reason: Option<io::Error>,
}

impl Outlet {
    /// Standard output, with nothing in its buffer.
    pub fn new(rt: &HostRuntime) -> io::Result<Outlet> {
        let size = if rt.stdout().is_terminal() {
            TERMINAL_BUFFER
        } else {
            BUFFER
        };
        Ok(Outlet {
            inner: Some(BufWriter::with_capacity(rt.alloc(), size, rt.stdout())?),
            reason: None,
        })
    }

    /// Why the last write or flush that failed did so; None where none failed.
    pub fn reason(&self) -> Option<io::Error> {
        self.reason
    }

    fn noted<T>(&mut self, answer: io::Result<T>) -> io::Result<T>
        ensures { result ≡ answer }
    {
        if let Err(reason) = &answer {
            self.reason = Some(*reason);
        }
        answer
    }
}

impl Write for Outlet {
    fn write(&mut self, bytes: &[u8]) -> io::Result<usize> {
        let Some(inner) = &mut self.inner else {
            return Err(io::Error::from(ErrorKind::InvalidInput));
        };
        let answer = inner.write(bytes);
        self.noted(answer)
    }

    fn flush(&mut self) -> io::Result<()> {
        let Some(inner) = &mut self.inner else {
            return Ok(());
        };
        let answer = inner.flush();
        self.noted(answer)
    }
}

impl Output for Vec<u8> {
    fn none(alloc: Global) -> Vec<u8> {
        Vec::new(alloc)
    }
}

impl Output for Outlet {
    /// Without standard output: a write fails, a flush succeeds.
    fn none(_alloc: Global) -> Outlet {
        Outlet {
            inner: None,
            reason: None,
        }
    }
}

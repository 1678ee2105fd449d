//! A stream that comes in, read by read.
ghost use Rattle.std.specs.Prelude.{◌≡◌, ◌≢◌, ◌+◌, ◌<◌, ◌≤◌, min, ℕ, Option, List, length, take, IfOk, IfErr, OnErr};
ghost use Rattle.std.specs.{Io.ReadsAtMost, Io.KnownBytes.Keeps, Io.KnownBytes.Consumes, Io.KnownBytes.IsAtEnd, IoError.error_kind};
ghost use Rattle.trace_reader.specs.Observing.{with_read};

use std::io::{self, ErrorKind, Read};
use trace_reader::Host;

/// A stream that comes in.
pub trait Source {
    /// The bytes that are still to come, where they are known.
    ghost remaining: { Self → Option (List ℕ) };

    /// How many reads gave bytes.
    ghost reads: { Self → ℕ };

    /// Reads once, and has the host note it. What a signal interrupts is tried again at once, and what would have to wait
    /// after a pause.
    fn read_once<H: Host>(&mut self, host: &mut H, slice: &mut [u8]) -> io::Result<usize>
        ensures bound { ReadsAtMost result slice.new }
        ensures bytes { IfOk result (λ n. Consumes (remaining self.old) (remaining self.new)
            (take n slice.new)) }
        ensures end { IfOk result (λ n. n ≡ 0 → 0 < length slice.old
            → IsAtEnd (remaining self.new)) }
        ensures kept { OnErr result (Keeps (remaining self.old) (remaining self.new)) }
        ensures counted { IfOk result (λ n. reads self.new ≡ reads self.old + min n 1) }
        ensures not_counted { OnErr result (reads self.new ≡ reads self.old) }
        ensures noted { IfOk result (λ n. H.observed host.new
            ≡ with_read (take n slice.new) (H.observed host.old)) }
        ensures not_noted { OnErr result (H.observed host.new ≡ H.observed host.old) }
        ensures interrupted { IfErr result (λ e. error_kind e ≢ ErrorKind.Interrupted) }
        ensures waiting { IfErr result (λ e. error_kind e ≢ ErrorKind.WouldBlock) };
}

/// What a reader gives, with the number of reads that gave bytes.
#[derive(Drop)]
pub struct Stream<R: Read> {
    reader: R,
    reads: u64,
}

impl<R: Read> Stream<R> {
    /// A stream over a reader of which nothing is read yet.
    pub fn over(reader: R) -> Stream<R>
        ensures reader { result.reader ≡ reader }
        ensures reads { result.reads ≡ 0 }
    {
        Stream { reader, reads: 0 }
    }
}

impl<R: Read> Source for Stream<R> {
    ghost remaining = { λ stream. R.remaining stream.reader };

    ghost reads = { λ stream. stream.reads };

    fn read_once<H: Host>(&mut self, host: &mut H, slice: &mut [u8]) -> io::Result<usize> {
        // A stream has fewer than 2^64 bytes.
        if self.reads == u64::MAX {
            return Err(io::Error::from(ErrorKind::Other));
        }
        match read_from(&mut self.reader, host, slice) {
            Ok(count) => {
                self.reads += u64::from(count > 0);
                host.note_read(&slice[..count]);
                Ok(count)
            }
            Err(error) => Err(error),
        }
    }
}

/// Reads once, as a source does, and notes nothing.
fn read_from<R: Read, H: Host>(reader: &mut R, host: &mut H, slice: &mut [u8]) -> io::Result<usize>
    ensures bound { ReadsAtMost result slice.new }
    ensures bytes { IfOk result (λ n. Consumes (R.remaining reader.old) (R.remaining reader.new)
        (take n slice.new)) }
    ensures end { IfOk result (λ n. n ≡ 0 → 0 < length slice.old
        → IsAtEnd (R.remaining reader.new)) }
    ensures kept { OnErr result (Keeps (R.remaining reader.old) (R.remaining reader.new)) }
    ensures interrupted { IfErr result (λ e. error_kind e ≢ ErrorKind.Interrupted) }
    ensures waiting { IfErr result (λ e. error_kind e ≢ ErrorKind.WouldBlock) }
    ensures same { H.observed host.new ≡ H.observed host.old }
{
    for _try in 0..u64::MAX {
        match reader.read(slice) {
            Ok(count) => return Ok(count),
            Err(error) => match error.kind() {
                ErrorKind::Interrupted => {}
                ErrorKind::WouldBlock => host.pause(),
                _ => return Err(error),
            },
        }
    }
    Err(io::Error::from(ErrorKind::Other))
}

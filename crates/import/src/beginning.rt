//! How an import begins: the first read past the bytes that it is to skip.
ghost use Rattle.std.specs.Prelude.{◌≡◌, ℕ, Option, List, MatchResult};
ghost use Rattle.import.specs.{Incoming.outside, Beginning.SkipsOrEnds, Beginning.IsUnread, Beginning.HasBegun};

use crate::fault::ImportFault;
use crate::incoming::{Incoming, LONGEST_READ};
use crate::source::Source;
use std::alloc::Global;
use trace_reader::Host;

/// Passes over `count` bytes of a stream; false where it ends before.
fn skip<S: Source, H: Host>(source: &mut S, host: &mut H, count: u64) -> Result<bool, ImportFault>
    ensures { MatchResult result (λ all. SkipsOrEnds all count
        (outside (S.remaining source.old) (S.reads source.old) (H.observed host.old))
        (outside (S.remaining source.new) (S.reads source.new) (H.observed host.new)))
        (IsUnread count (outside (S.remaining source.old) (S.reads source.old)
        (H.observed host.old)) (outside (S.remaining source.new) (S.reads source.new)
        (H.observed host.new))) }
{
    let mut slice = [0; LONGEST_READ];
    let mut left = count;
    'reads: while left > 0 {
        let most = left.min(LONGEST_READ as u64) as usize;
        let Ok(read) = source.read_once(host, &mut slice[..most]) else {
            return Err(ImportFault::Read);
        };
        if read == 0 {
            return Ok(false);
        }
        left -= read as u64;
    }
    Ok(true)
}

/// Passes over `skipped` bytes of a stream, and reads once; None where it ends before that gives a byte. Of its messages none of
/// more than `longest` bytes is kept.
pub fn begin<S: Source, H: Host>(
    alloc: Global,
    skipped: u64,
    longest: u32,
    source: &mut S,
    host: &mut H,
) -> Result<Option<Incoming>, ImportFault>
    ensures { HasBegun skipped longest
        (outside (S.remaining source.old) (S.reads source.old) (H.observed host.old))
        (outside (S.remaining source.new) (S.reads source.new) (H.observed host.new)) result }
{
    if !skip(source, host, skipped)? {
        return Ok(None);
    }
    let mut incoming = Incoming::new(alloc, longest)?;
    let count = incoming.read_more(source, host)?;
    if count == 0 {
        return Ok(None);
    }
    Ok(Some(incoming))
}

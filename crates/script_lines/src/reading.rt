//! A line of a script, taken off its reader.
ghost use Rattle.std.specs.Prelude.{◌≡◌, ◌≢◌, ◌≤◌, ◌<◌, ◌-◌, All, Ok, OnOk, IfErr, true, length, take};
ghost use Rattle.std.specs.Io.{StartsWith, StopsAt, IsEmptyOrEndsWith, appended_bytes};
ghost use Rattle.std.specs.{Io.BufRead.strip_last, Io.KnownBytes.Consumes};
ghost use Rattle.script_lines.specs.Reading.{IsReadLine, IsUsedUp, IsUnread};

use crate::fault::ScriptFault;
use std::io::{BufRead, ErrorKind};

/// Bytes of the longest line.
pub const LONGEST: usize = 300_000;

/// The length up to and with the first line break, or the whole length.
fn length_of_line(bytes: &[u8]) -> usize
    ensures bound { result ≤ length bytes.now }
    ensures some { 0 < length bytes.now → 0 < result }
    ensures before { All (λ b. b ≢ 10) (take (result - 1) bytes.now) }
{
    let mut length = 0;
    while length < bytes.len() {
        if bytes[length] == b'\n' {
            return length + 1;
        }
        length += 1;
    }
    length
}

/// Appends what the reader has buffered of the line, up to one byte more than a line may have; answers whether the line or the
/// reader ends there.
fn take_part<R: BufRead>(reader: &mut R, text: &mut Vec<u8>) -> Result<bool, ScriptFault>
    requires short { length text.old.items ≤ 300000 }
    ensures appends { StartsWith text.new.items text.old.items }
    ensures limit { length text.new.items ≤ 300001 }
    ensures consumes { Consumes (R.remaining reader.old) (R.remaining reader.new)
        (appended_bytes text.old.items text.new.items) }
    ensures stops { StopsAt (appended_bytes text.old.items text.new.items) 10 }
    ensures goes_on { result ≢ Ok true
        → All (λ b. b ≢ 10) (appended_bytes text.old.items text.new.items) }
    ensures done { result ≡ Ok true → IsEmptyOrEndsWith
        (appended_bytes text.old.items text.new.items) 10 }
    ensures end { result ≡ Ok true → length (appended_bytes text.old.items text.new.items) ≡ 0
        → IsUsedUp (R.remaining reader.old) (R.remaining reader.new) }
    ensures fault { IfErr result IsUnread }
{
    let available = match reader.fill_buf() {
        Ok(available) => available,
        Err(fault) if fault.kind() == ErrorKind::Interrupted => return Ok(false),
        Err(_) => return Err(ScriptFault::Read),
    };
    let most = available.len().min(LONGEST + 1 - text.len());
    let end = length_of_line(&available[..most]);
    text.extend_from_slice(&available[..end])?;
    let is_done = end == 0 || available[end - 1] == b'\n';
    reader.consume(end);
    Ok(is_done)
}

/// Replaces `text` by the next line with its line break, without one at the end of the script; of a line that is too long, by one
/// byte more than it may have.
pub fn read_line<R: BufRead>(reader: &mut R, text: &mut Vec<u8>) -> Result<(), ScriptFault>
    ensures consumes { Consumes (R.remaining reader.old) (R.remaining reader.new) text.new.items }
    ensures line { OnOk result (IsReadLine (R.remaining reader.old)
        (R.remaining reader.new) text.new.items) }
    ensures fault { IfErr result IsUnread }
{
    text.clear();
    for _part in 0..u64::MAX {
        if take_part(&mut *reader, &mut *text)? || text.len() > LONGEST {
            return Ok(());
        }
    }
    Err(ScriptFault::Read)
}

/// Takes a line break off the end of the text.
pub fn drop_break(text: &mut Vec<u8>)
    ensures { text.new.items ≡ strip_last 10 text.old.items }
{
    let length = text.len();
    if length == 0 {
        return;
    }
    if text[length - 1] != b'\n' {
        return;
    }
    text.truncate(length - 1);
}

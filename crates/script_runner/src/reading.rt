//! The next line of a script.
ghost use Rattle.std.specs.Prelude.{◌≡◌, true, false, IfOk, IfSome};
ghost use Rattle.script_lines.specs.{Lines.IsWithinLimits, Lines.IsOfFiles, Reading.progress};
ghost use Rattle.script_runner.specs.Read.{ComesNext};

use crate::fault::SimFault;
use script_lines::{Line, Script};
use std::io::BufRead;

/// Whether the line names a file beyond the `files` that there are.
fn is_beyond(line: &Line, files: u32) -> bool
    ensures beyond { result ≡ true → IsOfFiles files line.now → ⊥ }
    ensures within { result ≡ false → IsOfFiles files line.now }
{
    match line {
        Line::Bytes(file, _) => *file >= files,
        _ => false,
    }
}

/// The next line that isn't empty or a remark; None at the end. Err where one is bad, or names a file beyond the `files` that
/// there are.
pub fn next_line<R: BufRead>(
    script: &mut Script<'_, R>,
    files: u32,
) -> Result<Option<Line>, SimFault>
    ensures sound { IfOk result (λ found. IfSome found IsWithinLimits) }
    ensures of_desk { script.new.is_of_desk ≡ script.old.is_of_desk }
    ensures reader { script.new.reader.ghost_name ≡ script.old.reader.ghost_name }
    ensures next { ComesNext script.old.is_of_desk files
        (progress script.old.number (R.remaining script.old.reader.now))
        (progress script.new.number (R.remaining script.new.reader.now)) result }
{
    let Some(line) = script.next_line()? else {
        return Ok(None);
    };
    if is_beyond(&line, files) {
        drop(line);
        return Err(SimFault::from(script.bad_command()));
    }
    Ok(Some(line))
}

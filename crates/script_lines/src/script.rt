//! The lines of a script, read one at a time.
ghost use Rattle.std.specs.Prelude.{IfOk, IfSome, ◌≤◌, length, IsUtf8};
ghost use Rattle.script_lines.specs.{Lines.IsWithinLimits, Lines.IsOfRecord, Spellings.IsFound, Table.Spells};
ghost use Rattle.script_lines.specs.Reading.{progress, Advances, IsSilent, TellsLine, TellsNext, TellsRoom};

use crate::fault::ScriptFault;
use crate::line::{Line, parse};
use crate::reading::{LONGEST, drop_break, read_line};
use std::alloc::Global;
use std::io::BufRead;

/// Bytes of the longest script.
const MOST_BYTES: u64 = 1_099_511_627_776;

/// The lines of a script.
#[derive(Drop)]
pub struct Script<'r, R: BufRead> {
    alloc: Global,
    reader: &'r mut R,
    /// The present line, in room that is lent.
    text: &'r mut Vec<u8>,
    /// How many lines were taken off the reader.
    number: u64,
    /// How many bytes may still come.
    left: u64,
    /// Whether each line that isn't for a port in a desk is a bad command.
    is_of_desk: bool,
}

impl<'r, R: BufRead> Script<'r, R> {
    ghost use Rattle.std.specs.Prelude.{◌≡◌, true};

    /// A script of which nothing is read yet. Each of its lines is read into `text`. In a script that `is_of_desk` each line that
    /// isn't for a port in a desk is a bad command.
    pub fn new(
        alloc: Global,
        reader: &'r mut R,
        text: &'r mut Vec<u8>,
        is_of_desk: bool,
    ) -> Script<'r, R>
        ensures of_desk { result.is_of_desk ≡ is_of_desk }
        ensures name { result.reader.ghost_name ≡ reader.entry.ghost_name }
        ensures now { result.reader.now ≡ reader.entry.now }
        ensures number { result.number ≡ 0 }
        ensures room { result.left ≡ 1099511627776 }
    {
        Script {
            alloc,
            reader,
            text,
            number: 0,
            left: MOST_BYTES,
            is_of_desk,
        }
    }

    /// The fault of the present line.
    pub fn bad_command(&self) -> ScriptFault
        ensures { result ≡ ScriptFault.BadCommand self.now.number }
    {
        ScriptFault::BadCommand { line: self.number }
    }

    /// Reads the next line into `text`, without its line break; false at the end of the script.
    fn advance(&mut self) -> Result<bool, ScriptFault>
        ensures same { self.new.is_of_desk ≡ self.old.is_of_desk }
        ensures name { self.new.reader.ghost_name ≡ self.old.reader.ghost_name }
        ensures advances { Advances (progress self.old.number (R.remaining self.old.reader.now))
            (progress self.new.number (R.remaining self.new.reader.now)) self.new.text.now.items
            result }
        ensures room { TellsRoom self.old.left self.new.left (R.remaining self.old.reader.now)
            (R.remaining self.new.reader.now) result }
    {
        read_line(&mut *self.reader, &mut *self.text)?;
        if self.text.is_empty() {
            return Ok(false);
        }
        let Some(left) = self.left.checked_sub(self.text.len() as u64) else {
            return Err(ScriptFault::TooLong);
        };
        let Some(number) = self.number.checked_add(1) else {
            return Err(ScriptFault::Read);
        };
        self.left = left;
        self.number = number;
        drop_break(&mut *self.text);
        Ok(true)
    }

    /// `line`, where it may stand in this script; Err (`BadCommand`) where it may not, or is None.
    fn allowed(&self, line: Option<Line>) -> Result<Option<Line>, ScriptFault>
        requires limits { IfSome line IsWithinLimits }
        requires spelled { IsFound (λ it. Spells it self.now.text.now.items) line }
        requires utf8 { IsUtf8 self.now.text.now.items }
        requires short { length self.now.text.now.items ≤ 300000 }
        requires says { IsSilent self.now.text.now.items → ⊥ }
        ensures sound { IfOk result (λ found. IfSome found IsWithinLimits) }
        ensures spells { IfOk result (λ found. IfSome found
            (λ line. Spells line self.now.text.now.items)) }
        ensures of_desk { self.now.is_of_desk ≡ true
            → IfOk result (λ found. IfSome found IsOfRecord) }
        ensures tells { TellsLine self.now.is_of_desk self.now.number self.now.text.now.items
            result }
    {
        let is_allowed = match &line {
            Some(line) => !self.is_of_desk || line.is_of_desk(),
            None => false,
        };
        if is_allowed {
            return Ok(line);
        }
        drop(line);
        Err(self.bad_command())
    }

    /// The line that the text spells; None where it is empty or a remark, Err where it is no line of this script.
    fn present(&self) -> Result<Option<Line>, ScriptFault>
        ensures sound { IfOk result (λ found. IfSome found IsWithinLimits) }
        ensures spells { IfOk result (λ found. IfSome found
            (λ line. Spells line self.now.text.now.items)) }
        ensures of_desk { self.now.is_of_desk ≡ true
            → IfOk result (λ found. IfSome found IsOfRecord) }
        ensures tells { TellsLine self.now.is_of_desk self.now.number self.now.text.now.items
            result }
    {
        if self.text.len() > LONGEST {
            return Err(self.bad_command());
        }
        let Ok(text) = str::from_utf8(&*self.text) else {
            return Err(self.bad_command());
        };
        if text.is_empty() || text.starts_with('#') {
            return Ok(None);
        }
        self.allowed(parse(self.alloc, text)?)
    }

    /// The next line that isn't empty or a remark; None at the end of the script.
    pub fn next_line(&mut self) -> Result<Option<Line>, ScriptFault>
        ensures sound { IfOk result (λ found. IfSome found IsWithinLimits) }
        ensures spells { IfOk result (λ found. IfSome found
            (λ line. Spells line self.new.text.now.items)) }
        ensures of_desk { self.old.is_of_desk ≡ true
            → IfOk result (λ found. IfSome found IsOfRecord) }
        ensures same { self.new.is_of_desk ≡ self.old.is_of_desk }
        ensures name { self.new.reader.ghost_name ≡ self.old.reader.ghost_name }
        ensures next { TellsNext self.old.is_of_desk
            (progress self.old.number (R.remaining self.old.reader.now))
            (progress self.new.number (R.remaining self.new.reader.now)) result }
        // It is too long exactly where more came than the bytes that might.
        ensures room { TellsRoom self.old.left self.new.left (R.remaining self.old.reader.now)
            (R.remaining self.new.reader.now) result }
    {
        for _line in 0..u64::MAX {
            if !self.advance()? {
                return Ok(None);
            }
            let found = self.present()?;
            if found.is_some() {
                return Ok(found);
            }
            drop(found);
        }
        Err(ScriptFault::Read)
    }
}

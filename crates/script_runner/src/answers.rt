//! The answers of a run.
ghost use Rattle.std.specs.Prelude.{◌≡◌, ◌<◌, IfOk};
ghost use Rattle.script_runner.specs.Texts.{digit_of, gate_text, line_of, state_head};

use crate::answer::Answer;
use crate::fault::SimFault;
use arrayvec::ArrayString;
use std::fmt;
use std::fmt::Write as _;
use std::io::Write;
use trace_client::put_all;

/// The last word of a file's line, with its line feed: two hexadecimal digits, or `--` where there is no byte.
fn last_word(gate: Option<u8>) -> [u8; 3]
    ensures { result ≡ gate_text gate }
{
    match gate {
        Some(gate) => [digit(gate / 16), digit(gate % 16), b'\n'],
        None => *b"--\n",
    }
}

/// A hexadecimal digit.
fn digit(number: u8) -> u8
    requires { number < 16 }
    ensures { result ≡ digit_of number }
{
    if number < 10 {
        b'0' + number
    } else {
        b'a' + (number - 10)
    }
}

/// More bytes than an answer has with its line feed.
const LINE: usize = 160;

/// The line of an answer.
fn line(answer: Answer) -> Result<ArrayString<LINE>, fmt::Error>
    ensures { IfOk result (λ line. line.bytes ≡ line_of answer) }
{
    let mut line = ArrayString::new();
    writeln!(line, "{answer}")?;
    Ok(line)
}

/// The line of a file up to its last word.
fn head(file: u32, length: u64) -> Result<ArrayString<LINE>, fmt::Error>
    ensures { IfOk result (λ head. head.bytes ≡ state_head file length) }
{
    let mut head = ArrayString::new();
    write!(head, "file {file} length {length} gate ")?;
    Ok(head)
}

/// What answers are written to.
#[derive(Drop)]
pub struct Answers<'w, W: Write> {
    pub writer: &'w mut W,
    /// Each answer is written out at once.
    at_once: bool,
}

impl<'w, W: Write> Answers<'w, W> {
    ghost use Rattle.std.specs.Prelude.{◌≡◌, OnOk, OnErr, IfErr};
    ghost use Rattle.trace_client.specs.Output.{AppendsPrefix, Writes};
    ghost use Rattle.std.specs.Io.KnownBytes.{Appends, Keeps};
    ghost use Rattle.script_runner.specs.Texts.{line_of, state_text};
    ghost use Rattle.script_runner.specs.declared.fault.SimFault.TheVariants as faults;

    /// Answers that may wait in the writer.
    pub fn new(writer: &'w mut W) -> Answers<'w, W>
        ensures name { result.writer.ghost_name ≡ writer.entry.ghost_name }
        ensures now { result.writer.now ≡ writer.entry.now }
    {
        Answers {
            writer,
            at_once: false,
        }
    }

    /// Answers that are each written out at once.
    pub fn at_once(writer: &'w mut W) -> Answers<'w, W>
        ensures name { result.writer.ghost_name ≡ writer.entry.ghost_name }
        ensures now { result.writer.now ≡ writer.entry.now }
    {
        Answers {
            writer,
            at_once: true,
        }
    }

    /// Writes a line with the answer. After a fault a part of it is written, or all or nothing.
    pub fn tell(&mut self, answer: Answer) -> Result<(), SimFault>
        ensures name { self.new.writer.ghost_name ≡ self.old.writer.ghost_name }
        ensures text { OnOk result (Appends (W.contents self.old.writer.now)
            (W.contents self.new.writer.now) (line_of answer)) }
        ensures cut { OnErr result (AppendsPrefix (W.contents self.old.writer.now)
            (W.contents self.new.writer.now) (line_of answer)) }
        ensures fault { IfErr result (λ fault. fault ≡ faults.Write) }
    {
        let Ok(line) = line(answer) else {
            return Err(SimFault::Write);
        };
        let Ok(()) = put_all(&mut *self.writer, line.as_str().as_bytes()) else {
            return Err(SimFault::Write);
        };
        if self.at_once {
            return self.finish();
        }
        Ok(())
    }

    /// Writes the line of a file, with its length and, unless it is empty, its first byte.
    pub fn file(&mut self, file: u32, length: u64, gate: Option<u8>) -> Result<(), SimFault>
        ensures name { self.new.writer.ghost_name ≡ self.old.writer.ghost_name }
        ensures text { Writes (W.contents self.old.writer.now)
            (W.contents self.new.writer.now) result (state_text file length gate) }
        ensures fault { IfErr result (λ fault. fault ≡ faults.Write) }
    {
        let Ok(head) = head(file, length) else {
            return Err(SimFault::Write);
        };
        let Ok(()) = put_all(&mut *self.writer, head.as_str().as_bytes()) else {
            return Err(SimFault::Write);
        };
        let Ok(()) = put_all(&mut *self.writer, &last_word(gate)) else {
            return Err(SimFault::Write);
        };
        Ok(())
    }

    /// Writes out what is still in a buffer.
    pub fn finish(&mut self) -> Result<(), SimFault>
        ensures name { self.new.writer.ghost_name ≡ self.old.writer.ghost_name }
        ensures bytes { Keeps (W.contents self.old.writer.now) (W.contents self.new.writer.now) }
        ensures fault { IfErr result (λ fault. fault ≡ faults.Write) }
    {
        self.writer.flush().map_err(|_| SimFault::Write)
    }
}

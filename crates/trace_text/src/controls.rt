//! Text without the characters that govern a terminal.

ghost use Rattle.std.specs.Prelude.{◌≡◌, ◌≤◌, ◌∷◌, ◌++◌, length, take, drop, IfOk, OnOk};
ghost use Rattle.trace_text.specs.Controls.{is_control, octal, without_controls};

use crate::sight::seen_since;
use std::alloc::AllocError;

/// Whether these are the bytes of one of the control characters U+0080 to U+009F.
fn is_control(first: u8, second: u8) -> bool
    ensures { result ≡ is_control first second }
{
    first == 194 && 128 <= second && second < 160
}

/// Appends a backslash and the number of a control character in octal.
fn put_octal(line: &mut Vec<u8>, code: u8) -> Result<(), AllocError>
    ensures { OnOk result (line.new.items ≡ line.old.items ++ octal code) }
{
    line.extend_from_slice(&[
        b'\\',
        b'0' + code / 64,
        b'0' + code / 8 % 8,
        b'0' + code % 8,
    ])
}

/// Appends the number of the control character that `first` begins, or `first` alone, and answers the bytes after that.
fn put_next<'b>(line: &mut Vec<u8>, first: u8, behind: &'b [u8]) -> Result<&'b [u8], AllocError>
    ensures put { IfOk result (λ rest. line.new.items ++ without_controls rest.now
        ≡ line.old.items ++ without_controls (first ∷ behind.now)) }
    ensures less { IfOk result (λ rest. length rest.now ≤ length behind.now) }
{
    match behind {
        [second, others @ ..] if is_control(first, *second) => {
            put_octal(line, *second)?;
            Ok(others)
        }
        _ => {
            line.push(first)?;
            Ok(behind)
        }
    }
}

fn put_each(line: &mut Vec<u8>, text: &[u8]) -> Result<(), AllocError>
    ensures { OnOk result (line.new.items ≡ line.old.items ++ without_controls text.now) }
{
    let mut rest = text;
    'bytes: while let Some((first, behind)) = rest.split_first() {
        rest = put_next(line, *first, behind)?;
    }
    Ok(())
}

/// Replaces the control characters in a line, from an offset on, by their numbers.
pub fn hide_controls(line: &mut Vec<u8>, start: usize) -> Result<(), AllocError>
    ensures { OnOk result (line.new.items
        ≡ take start line.old.items ++ without_controls (drop start line.old.items)) }
{
    let text = seen_since(line, start);
    if text.is_ascii() {
        return Ok(());
    }
    let text = Vec::from_slice(*line.allocator(), text)?;
    line.truncate(start);
    put_each(line, &text)
}

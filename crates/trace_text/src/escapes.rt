//! Texts as JSON has them.
ghost use Rattle.std.specs.Prelude.{◌≡◌, ◌<◌, ◌≤◌, ◌/◌, ◌%◌, ◌++◌, ◌∷◌, [], length, take, IsFalse, IfOk, OnOk};
ghost use Rattle.std.specs.Char.{digit_char};
ghost use Rattle.json.specs.Print.{escape_byte, escape, quoted};

use std::alloc::AllocError;

/// How many bytes are looked at together.
const BLOCK: usize = 16;

/// A hexadecimal digit, in lower case.
fn hexadecimal_digit(value: u8) -> u8
    requires { value < 16 }
    ensures { result ≡ digit_char value }
{
    if value < 10 {
        b'0' + value
    } else {
        b'a' - 10 + value
    }
}

/// Appends a byte by its number, as `\u00` and two hexadecimal digits.
fn put_by_number(out: &mut Vec<u8>, byte: u8) -> Result<(), AllocError>
    ensures { OnOk result (out.new.items
        ≡ out.old.items ++ 92 ∷ 117 ∷ 48 ∷ 48 ∷ digit_char (byte / 16) ∷ digit_char (byte % 16)
        ∷ []) }
{
    let high = hexadecimal_digit(byte / 16);
    let low = hexadecimal_digit(byte % 16);
    out.extend_from_slice(&[b'\\', b'u', b'0', b'0', high, low])
}

/// Appends a byte as it stands between quotes.
#[inline(never)]
#[tactic(auto, unfolding(json::specs::Print::escape_byte))]
fn put_escaped(out: &mut Vec<u8>, byte: u8) -> Result<(), AllocError>
    ensures { OnOk result (out.new.items ≡ out.old.items ++ escape_byte byte) }
{
    match byte {
        b'"' => out.extend_from_slice(b"\\\""),
        b'\\' => out.extend_from_slice(b"\\\\"),
        8 => out.extend_from_slice(b"\\b"),
        9 => out.extend_from_slice(b"\\t"),
        10 => out.extend_from_slice(b"\\n"),
        12 => out.extend_from_slice(b"\\f"),
        13 => out.extend_from_slice(b"\\r"),
        0..=31 => put_by_number(out, byte),
        _ => Ok(out.push(byte)?),
    }
}

/// Whether a byte is escaped between quotes.
#[inline(always)]
#[tactic(auto, unfolding(json::specs::Print::escape_byte))]
fn is_escaped(byte: u8) -> bool
    ensures { IsFalse result → escape_byte byte ≡ byte ∷ [] }
{
    byte < 32 || byte == b'"' || byte == b'\\'
}

/// Whether one of these bytes is escaped between quotes. All are looked at, so that the processor does several at a time.
#[inline(always)]
fn has_escaped(bytes: &[u8]) -> bool
    ensures { IsFalse result → escape bytes.now ≡ bytes.now }
{
    let mut found = false;
    for byte in bytes {
        found |= is_escaped(*byte);
    }
    found
}

/// How many bytes at the front of a text are put as they are, counted in whole blocks.
fn plain_blocks(text: &[u8]) -> usize
    ensures within { result ≤ length text.now }
    ensures plain { escape (take result text.now) ≡ take result text.now }
{
    let mut size = 0;
    'runs: while text.len() - size >= BLOCK {
        if has_escaped(&text[size..size + BLOCK]) {
            return size;
        }
        size += BLOCK;
    }
    size
}

/// How many bytes at the front of a text are put as they are.
fn plain_size(text: &[u8]) -> usize
    ensures within { result ≤ length text.now }
    ensures plain { escape (take result text.now) ≡ take result text.now }
{
    let mut size = plain_blocks(text);
    'bytes: while size < text.len() {
        if is_escaped(text[size]) {
            return size;
        }
        size += 1;
    }
    size
}

/// Appends the bytes at the front that are put as they are, and the next one escaped; answers the bytes after it.
fn put_run<'b>(out: &mut Vec<u8>, text: &'b [u8]) -> Result<&'b [u8], AllocError>
    requires { 0 < length text.now }
    ensures put { IfOk result (λ rest. out.new.items ++ escape rest.now
        ≡ out.old.items ++ escape text.now) }
    ensures less { IfOk result (λ rest. length rest.now < length text.now) }
{
    let size = plain_size(text);
    let (plain, behind) = text.split_at(size);
    out.extend_from_slice(plain)?;
    match behind {
        [first, others @ ..] => {
            put_escaped(out, *first)?;
            Ok(others)
        }
        [] => Ok(behind),
    }
}

/// Appends a text, escaped as between quotes.
pub fn put_escapes(out: &mut Vec<u8>, text: &[u8]) -> Result<(), AllocError>
    ensures { OnOk result (out.new.items ≡ out.old.items ++ escape text.now) }
{
    let mut rest = text;
    'runs: while !rest.is_empty() {
        rest = put_run(out, rest)?;
    }
    Ok(())
}

/// Appends a text, escaped, between quotes.
pub fn put_quoted(out: &mut Vec<u8>, text: &[u8]) -> Result<(), AllocError>
    ensures { OnOk result (out.new.items ≡ out.old.items ++ quoted text.now) }
{
    out.push(b'"')?;
    put_escapes(out, text)?;
    Ok(out.push(b'"')?)
}

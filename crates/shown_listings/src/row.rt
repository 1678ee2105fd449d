//! A row: one line, in which a text is shown.
ghost use Rattle.std.specs.Prelude.{◌<◌, Bool, true, ◌≡◌, ◌≤◌, ◌++◌, ◌∷◌, [], ℕ, List, None, map, length, IfOk, OnOk, ◌||◌, is_some};
ghost use Rattle.shown_listings.specs.Rows.{shown_byte, unfed_byte, cut_sign, ShowsText, ShowsInRow};

use std::alloc::{AllocError, Global};
use std::str;
use unicode_width::UnicodeWidthChar;

/// The end of a line.
const FEED: u8 = b'\n';

/// Stands behind a text that is cut: `…`.
const CUT_SIGN: [u8; 3] = [0xe2, 0x80, 0xa6];

/// The bytes that suffice for a colour and its end, the sign and the end of a line.
const BESIDES: usize = 16;

/// How much is shown; None stands for all of it.
#[derive(Clone, Copy)]
pub struct Room {
    /// The most bytes of a text.
    pub bytes: Option<usize>,
    /// The most columns: of a row, or of its text.
    pub columns: Option<usize>,
}

/// What a row is made of: a text, and what stands before and behind it.
#[derive(Clone, Copy)]
pub struct Parts<'a> {
    pub before: &'a [u8],
    /// What takes no column.
    pub colour: &'a [u8],
    /// The place in `before` where the colour stands.
    pub colour_at: usize,
    pub text: &'a [u8],
    pub after: &'a [u8],
}

/// What a byte of a text is shown as.
fn shown_byte(byte: u8) -> u8
    ensures { result ≡ shown_byte byte }
{
    if byte < 32 || byte == 127 { b' ' } else { byte }
}

/// What a byte beside a text is shown as.
fn unfed_byte(byte: u8) -> u8
    ensures { result ≡ unfed_byte byte }
{
    if byte == FEED { b' ' } else { byte }
}

/// Whether a byte goes on with a character.
pub fn goes_on(byte: u8) -> bool {
    byte & 0xc0 == 0x80
}

/// Where the character begins at which a byte of a text stands.
fn start_of(text: &[u8], place: usize) -> usize
    ensures { result ≤ place }
{
    let Some(front) = text.get(..place) else {
        return 0;
    };
    if !text.get(place).is_some_and(|byte| goes_on(*byte)) {
        return place;
    }
    match front.iter().rposition(|byte| !goes_on(*byte)) {
        Some(start) => start.min(place),
        None => 0,
    }
}

/// How many columns of a terminal a character takes: one that governs it is shown as a blank.
fn columns_of(character: char) -> usize {
    character.width().unwrap_or(1)
}

/// How many bytes the first columns of a text have, of so many at most; and how many columns these are. Of bytes that aren't
/// UTF-8 each takes one.
fn first_columns(text: &[u8], most: usize) -> (usize, usize)
    ensures { result.0 ≤ length text.now }
{
    let Ok(characters) = str::from_utf8(text) else {
        let count = most.min(text.len());
        return (count, count);
    };
    let mut columns = 0usize;
    for (index, character) in characters.char_indices() {
        let behind = columns.saturating_add(columns_of(character));
        if behind > most {
            return (index.min(text.len()), columns);
        }
        columns = behind;
    }
    (text.len(), columns)
}

/// How many bytes of a text are shown in so many columns, of which the last one has the sign where they aren't all.
fn bytes_in_columns(text: &[u8], columns: usize) -> usize
    ensures { result ≤ length text.now }
{
    let (front, taken) = first_columns(text, columns.saturating_sub(1));
    let rest = &text[front..];
    if first_columns(rest, columns.saturating_sub(taken)).0 == rest.len() {
        text.len()
    } else {
        front
    }
}

/// How many bytes of a text are shown.
fn front_of(text: &[u8], room: Room) -> usize
    ensures within { result ≤ length text.now }
    ensures whole { room.bytes ≡ None → room.columns ≡ None → result ≡ length text.now }
{
    let count = match room.bytes {
        Some(most) if most < text.len() => start_of(text, most),
        _ => text.len(),
    };
    match room.columns {
        Some(columns) => bytes_in_columns(text, columns).min(count),
        None => count,
    }
}

/// Makes each byte what it is shown as in a text.
fn show_each(bytes: &mut [u8])
    ensures { bytes.new ≡ map shown_byte bytes.old }
{
    for byte in bytes.iter_mut() {
        *byte = shown_byte(*byte);
    }
}

/// Makes each byte what it is shown as beside a text.
fn unfeed_each(bytes: &mut [u8])
    ensures { bytes.new ≡ map unfed_byte bytes.old }
{
    for byte in bytes.iter_mut() {
        *byte = unfed_byte(*byte);
    }
}

/// Appends bytes as they are shown in a text.
fn put_shown(row: &mut Vec<u8>, text: &[u8]) -> Result<(), AllocError>
    ensures { OnOk result (row.new.items ≡ row.old.items ++ map shown_byte text.now) }
{
    let start = row.len();
    row.extend_from_slice(text)?;
    show_each(&mut row[start..]);
    Ok(())
}

/// Appends what stands beside a text.
fn put_beside(row: &mut Vec<u8>, bytes: &[u8]) -> Result<(), AllocError>
    ensures { OnOk result (row.new.items ≡ row.old.items ++ map unfed_byte bytes.now) }
{
    let start = row.len();
    row.extend_from_slice(bytes)?;
    unfeed_each(&mut row[start..]);
    Ok(())
}

/// What is shown of what stands before a text, up to the colour and behind it, and how much room is left for the text: only
/// for the sign, where what stands before isn't shown whole.
fn before_in<'a>(parts: Parts<'a>, room: Room) -> (&'a [u8], &'a [u8], Room)
    ensures bytes { result.2.bytes ≡ room.bytes }
    ensures columns { is_some result.2.columns ≡ is_some room.columns }
{
    let before = parts.before;
    let (shown, columns) = match room.columns {
        Some(width) => {
            let (count, columns) = first_columns(before, width.saturating_sub(1));
            let is_whole = count == before.len();
            let left = if is_whole {
                width.saturating_sub(columns)
            } else {
                0
            };
            (&before[..count], Some(left))
        }
        None => (before, None),
    };
    let (number, rest) = shown.split_at(parts.colour_at.min(shown.len()));
    (number, rest, Room { columns, ..room })
}

/// Appends the first bytes of a text as they are shown, and the sign where they aren't all.
fn put_text(row: &mut Vec<u8>, text: &[u8], count: usize) -> Result<(), AllocError>
    requires { count ≤ length text.now }
    ensures { OnOk result ((part : List ℕ)
        × ((cut : Bool) → (count < length text.now → cut ≡ true) → ShowsText cut text.now part)
        × (row.new.items ≡ row.old.items ++ part)) }
{
    put_shown(row, &text[..count])?;
    if count < text.len() {
        row.extend_from_slice(&CUT_SIGN)?;
    }
    Ok(())
}

/// The row of these parts. Where it would have more columns than there is room for, as many have the sign at their end.
pub fn row_of(alloc: Global, parts: Parts<'_>, room: Room) -> Result<Vec<u8>, AllocError>
    ensures { IfOk result (λ row.
        ShowsInRow (is_some room.bytes || is_some room.columns) parts.entry.text.now row.items) }
{
    let (number, rest, left) = before_in(parts, room);
    let count = front_of(parts.text, left);
    let size = parts.before.len().saturating_add(count);
    let mut row = Vec::with_capacity(alloc, size.saturating_add(BESIDES))?;
    put_beside(&mut row, number)?;
    put_beside(&mut row, parts.colour)?;
    put_beside(&mut row, rest)?;
    put_text(&mut row, parts.text, count)?;
    put_beside(&mut row, parts.after)?;
    row.push(FEED)?;
    Ok(row)
}

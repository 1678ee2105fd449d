//! Rows that come from an entry on, counted.
ghost use Rattle.std.specs.Prelude.{◌≡◌, true, IfSome, MatchOption, bytes_eq};
ghost use Rattle.shown_listings.specs.Since.{object_front, IsOfEntry, IsFrom, CountsOn, IsEnough};

/// What the object of an entry begins with.
const OBJECT: [u8; 5] = *b"{\"n\":";

/// Whether bytes are those that the object of an entry begins with.
fn is_object(head: &[u8]) -> bool
    ensures { result ≡ bytes_eq head.now object_front }
{
    head == OBJECT.as_slice()
}

/// The number of the entry whose object a line is.
fn number_in(line: &[u8]) -> Option<u64>
    ensures { IfSome result (IsOfEntry line.now) }
{
    let (head, behind) = line.split_at_checked(OBJECT.len())?;
    if !is_object(head) {
        return None;
    }
    let mut number: u64 = 0;
    for (index, byte) in behind.iter().enumerate() {
        if *byte == b',' && index > 0 {
            return Some(number);
        }
        if !byte.is_ascii_digit() {
            return None;
        }
        let tens = number.checked_mul(10)?;
        number = tens.checked_add(u64::from(*byte - b'0'))?;
    }
    None
}

/// Whether a line is of this entry, or of one that comes behind it.
fn is_from(first: Option<u64>, line: &[u8]) -> bool
    ensures { result ≡ true → MatchOption first ⊥ (λ entry. IsFrom entry line.now) }
{
    match (first, number_in(line)) {
        (Some(first), Some(number)) => first <= number,
        _ => false,
    }
}

/// How many rows came of a first entry and what is behind it, after a line that has `more` of them, by how many came before.
/// None until a line of these came.
pub fn rows_since(first: Option<u64>, since: Option<u64>, line: &[u8], more: u64) -> Option<u64>
    ensures { CountsOn first since line.now more result }
{
    match since {
        Some(rows) => Some(rows.saturating_add(more)),
        None => {
            if is_from(first, line) {
                Some(more)
            } else {
                None
            }
        }
    }
}

/// Whether the last rows that are asked for have come, where they are to come of a first entry and what is behind it.
pub fn has_enough(last: Option<u32>, first: Option<u64>, since: Option<u64>) -> bool
    ensures { result ≡ true → IfSome last (IsEnough first since) }
{
    match (last, first) {
        (Some(last), Some(_)) => since.is_some_and(|rows| u64::from(last) <= rows),
        _ => true,
    }
}

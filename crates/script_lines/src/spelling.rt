//! Numbers and bytes, as the words of a script spell them.
ghost use Rattle.std.specs.Prelude.{◌≡◌, ◌<◌, ◌≤◌, ◌%◌, ◌/◌, ◌↔◌, ◌∷◌, [], IsTrue, IfOk, length, slice_index};
ghost use Rattle.std.specs.{Char.is_ascii_digit, List.list_all};
ghost use Rattle.script_lines.specs.Spellings.{IsFound, IsFoundAs, IsNumber, IsNumberIn, IsDigit, IsHex, IsBytes, texts, words};

use std::alloc::{AllocError, Global};

/// The words of a text, split at each blank.
pub fn words(alloc: Global, text: &str) -> Result<Vec<&str>, AllocError>
    ensures { IfOk result (λ found. texts found.items ≡ words text.now) }
{
    text.split(' ').collect(alloc)
}

/// Whether a zero stands in front of another digit.
fn has_leading_zero(word: &[u8]) -> bool
    ensures { IsTrue result ↔ ((slice_index word.now 0 ≡ 48) × (1 < length word.now)) }
{
    matches!(word, [b'0', _, ..])
}

fn has_only_digits(word: &[u8]) -> bool
    ensures { result ≡ list_all is_ascii_digit word.now }
{
    word.iter().all(|digit| digit.is_ascii_digit())
}

/// The number that a word spells in decimal, without a sign and leading zeros; else None.
pub fn number(word: &str) -> Option<u64>
    ensures { IsFound (IsNumber word.now) result }
{
    let digits = word.as_bytes();
    if has_leading_zero(digits) || !has_only_digits(digits) {
        return None;
    }
    word.parse::<u64>().ok()
}

/// The number from `least` to `most` that a word spells; else None.
pub fn within(word: &str, least: u32, most: u32) -> Option<u32>
    ensures { IsFound (IsNumberIn least most word.now) result }
{
    let found = number(word)?;
    if found < u64::from(least) || u64::from(most) < found {
        return None;
    }
    u32::try_from(found).ok()
}

fn digit(letter: u8) -> Option<u8>
    ensures { IsFound (IsDigit letter) result }
{
    match letter {
        b'0'..=b'9' => Some(letter - b'0'),
        b'a'..=b'f' => Some(letter - b'a' + 10),
        b'A'..=b'F' => Some(letter - b'A' + 10),
        _ => None,
    }
}

/// The byte that two hexadecimal digits spell; None where one is no digit.
fn pair(high: u8, low: u8) -> Option<u8>
    ensures { IsFound (λ b. IsDigit high (b / 16) × IsDigit low (b % 16)) result }
{
    Some(digit(high)? * 16 + digit(low)?)
}

/// The byte that a word of two hexadecimal digits spells; None for any other word.
pub fn byte(word: &[u8]) -> Option<u8>
    ensures { IsFound (λ b. IsHex word.now (b ∷ [])) result }
{
    match word {
        [high, low] => pair(*high, *low),
        _ => None,
    }
}

/// The bytes that hexadecimal digits spell.
fn pairs(alloc: Global, digits: &[u8]) -> Result<Option<Vec<u8>>, AllocError>
    requires { length digits.now % 2 ≡ 0 }
    ensures { IfOk result (IsFoundAs (λ found. found.items) (IsHex digits.now)) }
{
    let mut found = Vec::with_capacity(alloc, digits.len() / 2)?;
    let mut rest = digits;
    while let [high, low, after @ ..] = rest {
        match pair(*high, *low) {
            Some(one) => found.push(one)?,
            None => return Ok(None),
        }
        rest = after;
    }
    Ok(Some(found))
}

/// The bytes that hexadecimal digits spell, `-` for none.
pub fn bytes(alloc: Global, word: &str) -> Result<Option<Vec<u8>>, AllocError>
    ensures { IfOk result (IsFoundAs (λ found. found.items) (IsBytes word.now)) }
{
    if word == "-" {
        return Ok(Some(Vec::new(alloc)));
    }
    let digits = word.as_bytes();
    if digits.is_empty() || digits.len() % 2 != 0 {
        return Ok(None);
    }
    pairs(alloc, digits)
}

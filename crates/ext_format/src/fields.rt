//! Fields, read from the front of bytes: each with the bytes after it.

ghost use Rattle.std.specs.Prelude.{◌≡◌};
ghost use Rattle.std.specs.Int.{w8, w16, w32};
ghost use Rattle.ext_format.specs.Reading.{Gives, number_at, bytes_at, sized_at, tag_at};
ghost use Rattle.ext_format.specs.Widths.{width_of};

use crate::fault::DecodeFault;
use crate::tag::{Tag, tag_named};

/// How many bytes a number has, where a tag chooses.
#[derive(Clone, Copy)]
pub enum Bytes {
    One,
    Four,
}

/// A number of one byte.
pub fn u8_at(bytes: &[u8]) -> Result<(u8, &[u8]), DecodeFault>
    ensures { Gives (λ x. (x.0, x.1.now)) result (number_at w8 bytes.now) }
{
    let (first, rest) = bytes.split_first().ok_or(DecodeFault::Truncated)?;
    Ok((*first, rest))
}

/// A number of two bytes.
pub fn u16_at(bytes: &[u8]) -> Result<(u16, &[u8]), DecodeFault>
    ensures { Gives (λ x. (x.0, x.1.now)) result (number_at w16 bytes.now) }
{
    if bytes.len() < 2 {
        return Err(DecodeFault::Truncated);
    }
    let (front, rest) = bytes.split_at(2);
    Ok((u16::from_be_bytes([front[0], front[1]]), rest))
}

/// A number of four bytes.
pub fn u32_at(bytes: &[u8]) -> Result<(u32, &[u8]), DecodeFault>
    ensures { Gives (λ x. (x.0, x.1.now)) result (number_at w32 bytes.now) }
{
    if bytes.len() < 4 {
        return Err(DecodeFault::Truncated);
    }
    let (front, rest) = bytes.split_at(4);
    let number = u32::from_be_bytes([front[0], front[1], front[2], front[3]]);
    Ok((number, rest))
}

/// A number of one byte or of four.
#[inline(always)]
pub fn number_at(size: Bytes, bytes: &[u8]) -> Result<(u32, &[u8]), DecodeFault>
    ensures { Gives (λ x. (x.0, x.1.now)) result (number_at (width_of size) bytes.now) }
{
    match size {
        Bytes::One => {
            let (number, rest) = u8_at(bytes)?;
            Ok((u32::from(number), rest))
        }
        Bytes::Four => u32_at(bytes),
    }
}

/// So many bytes.
pub fn bytes_of(count: usize, bytes: &[u8]) -> Result<(&[u8], &[u8]), DecodeFault>
    ensures { Gives (λ x. (x.0.now, x.1.now)) result (bytes_at count bytes.now) }
{
    if bytes.len() < count {
        return Err(DecodeFault::Truncated);
    }
    Ok(bytes.split_at(count))
}

/// A length of one byte, and that many bytes.
#[tactic(auto, unfolding(crate::specs::Reading::sized_at))]
pub fn sized_8(bytes: &[u8]) -> Result<(&[u8], &[u8]), DecodeFault>
    ensures { Gives (λ x. (x.0.now, x.1.now)) result (sized_at w8 bytes.now) }
{
    let (count, rest) = u8_at(bytes)?;
    bytes_of(usize::from(count), rest)
}

/// A length of two bytes, and that many bytes.
#[tactic(auto, unfolding(crate::specs::Reading::sized_at))]
pub fn sized_16(bytes: &[u8]) -> Result<(&[u8], &[u8]), DecodeFault>
    ensures { Gives (λ x. (x.0.now, x.1.now)) result (sized_at w16 bytes.now) }
{
    let (count, rest) = u16_at(bytes)?;
    bytes_of(usize::from(count), rest)
}

/// A length of four bytes, and that many bytes.
#[tactic(auto, unfolding(crate::specs::Reading::sized_at))]
pub fn sized_32(bytes: &[u8]) -> Result<(&[u8], &[u8]), DecodeFault>
    ensures { Gives (λ x. (x.0.now, x.1.now)) result (sized_at w32 bytes.now) }
{
    let (count, rest) = u32_at(bytes)?;
    bytes_of(count as usize, rest)
}

/// A tag.
#[tactic(auto, unfolding(crate::specs::Reading::tag_at))]
pub fn tag_behind(bytes: &[u8]) -> Result<(Tag, &[u8]), DecodeFault>
    ensures { Gives (λ x. (x.0, x.1.now)) result (tag_at bytes.now) }
{
    let (byte, rest) = u8_at(bytes)?;
    let tag = tag_named(byte).ok_or(DecodeFault::BadTag)?;
    Ok((tag, rest))
}

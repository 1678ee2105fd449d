//! Numbers of bytes, as a command line says them.

/// The bytes of each unit. Both cases of a letter are one unit.
const UNITS: [(char, u64); 6] = [
    ('K', 1 << 10),
    ('k', 1 << 10),
    ('M', 1 << 20),
    ('m', 1 << 20),
    ('G', 1 << 30),
    ('g', 1 << 30),
];

/// The number without its unit, and the bytes of that.
fn with_unit(text: &str) -> (&str, u64) {
    for (unit, bytes) in UNITS {
        if let Some(number) = text.strip_suffix(unit) {
            return (number, bytes);
        }
    }
    (text, 1)
}

/// A number of bytes, with K, M or G after it or nothing. None where it isn't one below 2^32; but 4G stands for the
/// greatest of these.
pub fn bytes_in(text: &str) -> Option<u32> {
    let (number, unit) = with_unit(text);
    let bytes = u64::from(number.parse::<u32>().ok()?).checked_mul(unit)?;
    if bytes == 1 << 32 {
        return Some(u32::MAX);
    }
    u32::try_from(bytes).ok()
}

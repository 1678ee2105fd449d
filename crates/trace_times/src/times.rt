//! The times that messages tell.

/// What the text of a message with a time begins with.
const TAG: &[u8; 10] = b"{trace_ts,";

/// The most digits of a number in i64.
const MOST_DIGITS: usize = 19;

/// A time, in nanoseconds.
#[derive(Clone, Copy)]
pub enum Time {
    /// Since the beginning of 1970.
    Wall(i64),
    /// By a monotonic clock.
    Monotonic(i64),
}

impl Time {
    pub fn nanos(self) -> i64 {
        match self {
            Time::Wall(nanos) | Time::Monotonic(nanos) => nanos,
        }
    }
}

/// What the time stamp of a message with this text tells, where its tag is `trace_ts`: the time `{MegaSecs,Secs,MicroSecs}`, the
/// monotonic time, or `{Monotonic,Unique}`. None where there is none, and where it has no value in i64.
pub fn time_in(text: &[u8]) -> Option<Time> {
    let (tag, members) = text.split_first_chunk()?;
    if tag != TAG {
        return None;
    }
    let members = members.strip_suffix(b"}")?;
    if let [inside @ .., b'}'] = members {
        return time_of_members(inside);
    }
    match last_number(members)? {
        (time, [.., b',']) => Some(Time::Monotonic(time)),
        _ => None,
    }
}

/// What the text of a time stamp tells. None where that has no value in i64, or it is no time stamp.
pub fn time_of_stamp(stamp: &[u8]) -> Option<Time> {
    let Some(members) = stamp.strip_suffix(b"}") else {
        return match last_number(stamp)? {
            (time, []) => Some(Time::Monotonic(time)),
            _ => None,
        };
    };
    time_of_members(members)
}

/// The time of a tuple with these members, at the end of a text.
fn time_of_members(members: &[u8]) -> Option<Time> {
    let (last, [before @ .., b',']) = last_number(members)? else {
        return None;
    };
    match last_number(before)? {
        (monotonic, [.., b'{']) => Some(Time::Monotonic(monotonic)),
        (seconds, [before @ .., b',']) => match last_number(before)? {
            (mega, [.., b'{']) => Some(Time::Wall(nanoseconds(mega, seconds, last)?)),
            _ => None,
        },
        _ => None,
    }
}

/// The nanoseconds of a time that is told in three numbers.
fn nanoseconds(mega: i64, seconds: i64, micros: i64) -> Option<i64> {
    let all_seconds = mega.checked_mul(1_000_000)?.checked_add(seconds)?;
    let all_micros = all_seconds.checked_mul(1_000_000)?.checked_add(micros)?;
    all_micros.checked_mul(1_000)
}

/// The integer that ends a text, and what stands before it.
fn last_number(text: &[u8]) -> Option<(i64, &[u8])> {
    let (number, before) = last_digits(text)?;
    match before {
        [before @ .., b'-'] => Some((0_i64.checked_sub_unsigned(number)?, before)),
        _ => Some((i64::try_from(number).ok()?, before)),
    }
}

/// The number that the digits at the end of a text are, and what stands before them. None where there are none, and where there
/// are more than any number in i64 has. The greatest number of so many digits is below 2^64, so it is counted without wrapping.
fn last_digits(text: &[u8]) -> Option<(u64, &[u8])> {
    let mut number: u64 = 0;
    let mut unit: u64 = 1;
    let mut before = text;
    while let [front @ .., digit @ b'0'..=b'9'] = before {
        number = number.wrapping_add(unit.wrapping_mul(u64::from(digit & 0x0F)));
        unit = unit.wrapping_mul(10);
        before = front;
    }
    match text.len() - before.len() {
        1..=MOST_DIGITS => Some((number, before)),
        _ => None,
    }
}

/// The nanoseconds from one time to another, where both are told; 0 where that is before.
pub fn between(from: Option<i64>, to: Option<i64>) -> Option<u64> {
    let time = to?.checked_sub(from?)?;
    Some(u64::try_from(time).unwrap_or(0))
}

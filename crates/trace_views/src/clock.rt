//! The times of a drawing.

/// Nanoseconds in a microsecond.
const MICROSECOND: u64 = 1_000;

/// The time of each entry of a drawing, in nanoseconds from the first one. Until a time is told, an entry is a microsecond after
/// the one before. From then on it is as long after the first one of which a time was told as its own time says; without a time
/// it is at that of the entry before.
#[derive(Clone, Copy)]
pub struct Clock {
    /// The first time that was told.
    pub first: Option<i64>,
    /// Where that stands; until there is one, where the next entry does.
    start: u64,
    /// Where the last entry stands.
    now: u64,
    /// The latest that any entry stands.
    pub latest: u64,
}

impl Clock {
    /// No entry came yet.
    pub fn new() -> Clock {
        Clock {
            first: None,
            start: 0,
            now: 0,
            latest: 0,
        }
    }

    /// Where the next entry stands, whose time is told so.
    pub fn next(&mut self, told: Option<i64>) -> u64 {
        match (self.first, told) {
            (None, None) => {
                self.now = self.start;
                self.start = self.start.saturating_add(MICROSECOND);
            }
            (None, Some(_)) => {
                self.first = told;
                self.now = self.start;
            }
            (Some(first), Some(time)) => {
                let passed = u64::try_from(time.saturating_sub(first)).unwrap_or(0);
                self.now = self.start.saturating_add(passed);
            }
            (Some(_), None) => {}
        }
        self.latest = self.latest.max(self.now);
        self.now
    }
}

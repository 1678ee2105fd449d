//! How many messages there are, and were lost, in equal shares of a trace.

/// The most bars that are kept.
const MOST_KEPT: usize = 120;

/// The most that are shown.
const MOST_SHOWN: u64 = 60;

/// One share.
#[derive(Clone, Copy)]
pub struct Bar {
    pub messages: u64,
    /// Messages that drop records say were lost.
    pub lost: u64,
}

impl Bar {
    /// An empty one.
    const NONE: Bar = Bar {
        messages: 0,
        lost: 0,
    };

    /// Two as one.
    fn with(self, other: Bar) -> Bar {
        Bar {
            messages: self.messages.saturating_add(other.messages),
            lost: self.lost.saturating_add(other.lost),
        }
    }
}

/// Shares of a length that is a power of two, from the beginning on. When something lies beyond the last that is kept, two become
/// one.
#[derive(Clone, Copy)]
pub struct Bars {
    kept: [Bar; MOST_KEPT],
    /// The place of the last one that has anything.
    last: u64,
    /// How long a share is, as a power of two.
    power: u32,
}

impl Bars {
    /// Nothing lies in any.
    pub const NONE: Bars = Bars {
        kept: [Bar::NONE; MOST_KEPT],
        last: 0,
        power: 0,
    };

    /// Adds what lies so far from the beginning.
    fn add(&mut self, place: u64, more: Bar) {
        let share = self.share_for(place);
        self.last = self.last.max(share);
        if let Ok(share) = usize::try_from(share)
            && let Some(bar) = self.kept.get_mut(share)
        {
            *bar = bar.with(more);
        }
    }

    /// In which share a place lies, after shares have become long enough for it.
    fn share_for(&mut self, place: u64) -> u64 {
        for _ in 0..u64::BITS {
            let share = place.checked_shr(self.power).unwrap_or(0);
            if share < MOST_KEPT as u64 {
                return share;
            }
            self.halve();
        }
        0
    }

    /// Makes one of each two shares.
    fn halve(&mut self) {
        for place in 0..MOST_KEPT {
            self.kept[place] = self.bar(2 * place).with(self.bar(2 * place + 1));
        }
        self.last /= 2;
        self.power = self.power.saturating_add(1);
    }

    /// The share of this number; an empty one behind those that are kept.
    fn bar(&self, number: usize) -> Bar {
        self.kept.get(number).copied().unwrap_or(Bar::NONE)
    }

    /// As many as are shown.
    pub fn shown(mut self) -> Bars {
        if self.last >= MOST_SHOWN {
            self.halve();
        }
        self
    }

    /// The shares, up to the last that has anything.
    pub fn shares(&self) -> &[Bar] {
        match usize::try_from(self.last) {
            Ok(last) if last < MOST_KEPT => &self.kept[..last + 1],
            _ => &self.kept,
        }
    }

    /// How long a share is.
    pub fn length(&self) -> u64 {
        1_u64.checked_shl(self.power).unwrap_or(u64::MAX)
    }

    /// The most messages of a share.
    pub fn most(&self) -> u64 {
        self.shares()
            .iter()
            .map(|bar| bar.messages)
            .max()
            .unwrap_or(0)
    }

    /// All messages that were lost.
    pub fn lost(&self) -> u64 {
        let mut lost: u64 = 0;
        for bar in self.shares() {
            lost = lost.saturating_add(bar.lost);
        }
        lost
    }
}

/// What lies where in a trace: by the times of messages, and by the numbers of its entries.
#[derive(Clone, Copy)]
pub struct Course {
    by_time: Bars,
    by_entry: Bars,
    /// How many entries there are.
    entries: u64,
    /// The first time.
    first: Option<i64>,
    /// From the first time to the last, in nanoseconds.
    passed: u64,
}

impl Course {
    /// Of no entry.
    pub const NONE: Course = Course {
        by_time: Bars::NONE,
        by_entry: Bars::NONE,
        entries: 0,
        first: None,
        passed: 0,
    };

    /// Notes a message, at this time if one is told.
    pub fn note_message(&mut self, time: Option<i64>) {
        if let Some(time) = time {
            let first = self.first.unwrap_or(time);
            self.first = Some(first);
            self.passed = u64::try_from(time.saturating_sub(first)).unwrap_or(0);
        }
        self.note(Bar {
            messages: 1,
            lost: 0,
        });
    }

    /// Notes a drop record, which lies where the message before it does.
    pub fn note_lost(&mut self, count: u32) {
        self.note(Bar {
            messages: 0,
            lost: u64::from(count),
        });
    }

    /// Notes an entry. From the first time on, only the times matter.
    fn note(&mut self, bar: Bar) {
        self.by_time.add(self.passed, bar);
        if self.first.is_none() {
            self.by_entry.add(self.entries, bar);
        }
        self.entries = self.entries.saturating_add(1);
    }

    /// Its shares: of the time, where there are times, else of the entries.
    pub fn shown(&self) -> Bars {
        match self.first {
            Some(_) => self.by_time.shown(),
            None => self.by_entry.shown(),
        }
    }
}

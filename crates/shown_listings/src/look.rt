//! How rows look, by what a command line asks and by what they are written to.
ghost use Rattle.std.specs.Prelude.{◌≡◌};
ghost use Rattle.shown_listings.specs.Listings.{rule_from};

use command_line::{Layout, Moment, TimeColumn};
use std::cmp::Ordering;
use trace_times::Time;

/// What rows are written to.
#[derive(Clone, Copy)]
pub struct Screen {
    pub is_coloured: bool,
    /// The columns that it has, where rows are cut there.
    pub width: Option<usize>,
}

/// Which rows are shown, and whether these may lack a part of a text.
#[derive(Clone, Copy)]
pub struct Rule {
    /// Each line has a row, also where the last alone are shown.
    pub shows_each: bool,
    /// A text may be cut.
    pub may_cut: bool,
    /// How many of the last rows alone are shown, where not all are.
    pub last: Option<u32>,
    /// What comes after the first flush is shown too.
    pub follows: bool,
    /// The entry from which on the last rows are sought, where that isn't the first that is asked for.
    pub first: Option<u64>,
}

/// How rows look, and which are shown.
#[derive(Clone, Copy)]
pub struct Look {
    pub times: TimeColumn,
    pub is_coloured: bool,
    pub width: Option<usize>,
    pub longest_text: Option<usize>,
    pub since: Option<Moment>,
    pub until: Option<Moment>,
    pub rule: Rule,
    /// What was there when it began isn't shown.
    pub is_from_now: bool,
}

/// The nanoseconds of a day.
const DAY: i64 = 86_400_000_000_000;

/// When a row is, as it is told.
#[derive(Clone, Copy)]
pub struct RowTime {
    /// As the clocks of the zone tell it.
    pub told: Time,
    /// The nanoseconds since the first message that is shown where nothing is asked of times.
    pub passed: i64,
    /// The time when the listing began, as the clocks of the zone tell it, where it is known.
    pub began: Option<i64>,
}

impl RowTime {
    /// The order of it and a moment, where they are of one clock.
    fn compared(self, moment: Moment) -> Option<Ordering> {
        match (self.told, moment) {
            (_, Moment::SinceFirst(moment)) => Some(self.passed.cmp(&moment)),
            (Time::Wall(nanos), Moment::OfDay(moment)) => Some(nanos.rem_euclid(DAY).cmp(&moment)),
            (Time::Wall(nanos), Moment::Dated(moment)) => Some(nanos.cmp(&moment)),
            (Time::Wall(nanos), Moment::Ago(moment)) => {
                Some(nanos.cmp(&self.began?.saturating_sub(moment)))
            }
            (Time::Monotonic(nanos), Moment::Monotonic(moment)) => Some(nanos.cmp(&moment)),
            _ => None,
        }
    }
}

/// Whether a moment is told by what passed since the first message.
fn is_since_first(moment: Option<Moment>) -> bool {
    matches!(moment, Some(Moment::SinceFirst(_)))
}

impl Look {
    /// Rows with no colour that aren't cut, one for each line.
    pub const PLAIN: Look = Look {
        times: TimeColumn::Clock,
        is_coloured: false,
        width: None,
        longest_text: None,
        since: None,
        until: None,
        rule: Rule {
            shows_each: true,
            may_cut: false,
            last: None,
            follows: false,
            first: None,
        },
        is_from_now: false,
    };

    /// How a listing looks on a screen, whose last rows are sought from an entry on, or from its beginning.
    pub fn new(layout: &Layout, first: Option<u64>, screen: Screen) -> Look
        ensures { result.rule ≡ rule_from first layout.now }
    {
        Look {
            times: layout.times,
            is_coloured: screen.is_coloured,
            width: screen.width,
            longest_text: layout.longest_text.map(|most| most as usize),
            since: layout.since,
            until: layout.until,
            rule: Rule {
                shows_each: layout.shows_each(),
                may_cut: layout.may_cut(),
                last: layout.last,
                follows: layout.follows,
                first,
            },
            is_from_now: layout.is_from_now,
        }
    }

    /// Whether it is asked how long after the first message one came.
    pub fn asks_passed(&self) -> bool {
        is_since_first(self.since) || is_since_first(self.until)
    }

    /// Whether a time is one that is shown. Where nothing is asked of times, each is, and else none that isn't told.
    pub fn is_between(&self, time: Option<RowTime>) -> bool {
        let Some(time) = time else {
            return self.since.is_none() && self.until.is_none();
        };
        let is_since = match self.since {
            Some(since) => time
                .compared(since)
                .is_some_and(|order| order != Ordering::Less),
            None => true,
        };
        let is_until = match self.until {
            Some(until) => time
                .compared(until)
                .is_some_and(|order| order != Ordering::Greater),
            None => true,
        };
        is_since && is_until
    }
}

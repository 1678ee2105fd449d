//! How a listing is laid out for a person.

ghost use Rattle.std.specs.Prelude.{◌≡◌};
ghost use Rattle.command_line.specs.Layouts.{shows_each, may_cut};

/// What the column of times has.
#[derive(Clone, Copy)]
pub enum TimeColumn {
    /// The time of day; of monotonic time what passed since the first that is shown.
    Clock,
    /// What passed since the first that is shown.
    SinceFirst,
    /// What passed since the one that is shown before.
    SinceLast,
}

/// Where rows have colours.
#[derive(Clone, Copy)]
pub enum Colours {
    Always,
    Never,
    OnTerminal,
}

/// A moment of a trace, in nanoseconds.
#[derive(Clone, Copy)]
pub enum Moment {
    /// Of each day, since midnight.
    OfDay(i64),
    /// Since the beginning of 1970.
    Dated(i64),
    /// By a monotonic clock, as a node tells it.
    Monotonic(i64),
    /// Since the first message that is shown where no moment is asked for.
    SinceFirst(i64),
    /// Before now, by the clock of the machine.
    Ago(i64),
}

/// How a listing is laid out for a person.
#[derive(Drop)]
pub struct Layout {
    pub times: TimeColumn,
    pub colours: Colours,
    /// No row is cut at the width.
    pub is_full: bool,
    /// The columns of a row, where the command line says so.
    pub width: Option<u32>,
    /// The most bytes of a text that are shown, where not all are.
    pub longest_text: Option<u32>,
    /// The times of wall clocks are told in UTC, not in the zone of the machine.
    pub is_utc: bool,
    pub since: Option<Moment>,
    pub until: Option<Moment>,
    /// What the text of each row that is shown has.
    pub grep: Option<String>,
    /// What was there when it began isn't shown.
    pub is_from_now: bool,
    /// How many of the last rows alone are shown, where not all are.
    pub last: Option<u32>,
    /// What is added to a trace is shown too.
    pub follows: bool,
}

impl Layout {
    /// Whether each line has a row, also where the last alone are shown.
    pub fn shows_each(&self) -> bool
        ensures { result ≡ shows_each self.now }
    {
        self.since.is_none() && self.until.is_none() && self.grep.is_none() && !self.is_from_now
    }

    /// Whether a text may be cut.
    pub fn may_cut(&self) -> bool
        ensures { result ≡ may_cut self.now }
    {
        !self.is_full || self.longest_text.is_some()
    }
}

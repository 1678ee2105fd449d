//! What a table of a trace has.

/// What a row of it stands for.
#[derive(Clone, Copy)]
pub enum Grouping {
    Function,
    Process,
    Kind,
}

/// By what its rows are in order, the greatest first.
#[derive(Clone, Copy)]
pub enum Order {
    /// Calls of a function or by a process, messages of a kind.
    Count,
    Exceptions,
    /// The time of all calls.
    Total,
    /// The time of a call.
    Mean,
    /// The time of the longest call.
    Longest,
    /// The most messages that waited for a process.
    Waiting,
}

/// The rows that are shown.
#[derive(Clone, Copy)]
pub struct Ranking {
    pub by: Grouping,
    /// Where it isn't said, by total time where there are times, and else by count.
    pub order: Option<Order>,
    /// How many at most.
    pub limit: u32,
}

//! What stands in a trace.

use crate::gap::Gap;
use entry_codec::EntryRef;

/// What a trace has, one after the other.
#[derive(Clone, Copy)]
pub enum Item<'i> {
    /// What is missing before the next entry. It stands before the first one of each row of entries, also where nothing is.
    Gap(Gap),
    /// A message or a drop record.
    Entry(EntryRef<'i>),
    /// No entry follows, and those that came are all there are.
    End,
}

//! The files that are named to a person.

/// Files of a store that don't belong together.
#[derive(Clone, Copy)]
pub enum Disagreement {
    /// The file isn't the one of its generation.
    One { file: u32 },
    /// The two differ in kind, count, size or time; or the other, which has the next generation there is, doesn't go on
    /// from the one.
    Two { one: u32, other: u32 },
    /// The file of a run that the wrap still keeps isn't there, or holds another one; or that of the oldest of these.
    Missing { file: u32, is_oldest: bool },
}

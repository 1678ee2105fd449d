//! What was done when a fault came.

/// What was done when a fault came, as far as it says what to do next.
#[derive(Clone, Copy)]
pub enum Stage {
    /// So many entries are read, and so many of them listed.
    Listing { entries: u64, shown: u64 },
    /// So many entries are written.
    Exporting(u64),
    /// So many entries are counted before a damage in its file, and so many in other files.
    Counting { before: u64, elsewhere: u64 },
    /// Its entries are looked at by this command, and none is written.
    Viewing(&'static str),
    /// It was read again, since another process writes it.
    ReadingAgain,
    Opening,
    Importing,
    Other,
}

impl Stage {
    /// The command that does it.
    pub fn command(self) -> &'static str {
        match self {
            Stage::Exporting(_) => "export",
            Stage::Counting { .. } => "info",
            Stage::Viewing(command) => command,
            Stage::Opening | Stage::Importing => "import",
            Stage::Listing { .. } | Stage::ReadingAgain | Stage::Other => "list",
        }
    }
}

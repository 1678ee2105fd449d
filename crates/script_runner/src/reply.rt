//! How a port comes to be held, and what comes of a line then.

use crate::answer::Answer;
use crate::fault::SimFault;
use crate::refusal::Refusal;
use script_lines::Unsynced;

/// How a port came to be held.
#[derive(Clone, Copy)]
pub enum Origin {
    Created,
    Resumed,
}

/// Why a port is held no longer.
#[derive(Clone, Copy)]
pub enum Leave {
    Abandoned,
    Closed,
    Crashed(Unsynced),
}

/// What comes of a line.
#[derive(Drop)]
pub enum Reply {
    Told(Answer),
    /// The port is given up, and answered of once it has been dropped.
    Left(Leave),
}

/// Why a line's port isn't held until it is given up.
#[derive(Drop)]
pub enum Stop {
    /// There is none.
    Refused(Refusal),
    Failed(SimFault),
}

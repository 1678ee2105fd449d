//! What a port is made of.
ghost use Rattle.std.specs.Prelude.{◌≡◌};

use trace_port::{Opening, Pending};
use wrap_port::WrapOpening;

/// What a port is made of.
#[derive(Drop)]
pub enum AnyOpening {
    File(Opening<Pending>),
    Wrap(WrapOpening<Pending>),
}

impl AnyOpening {
    ghost use Rattle.script_runner.specs.PortOpenings.{entries_found};

    /// How many entries the trace has.
    pub fn total(&self) -> u64
        ensures { result ≡ entries_found self.now }
    {
        match self {
            AnyOpening::File(opening) => opening.total(),
            AnyOpening::Wrap(opening) => opening.total(),
        }
    }
}

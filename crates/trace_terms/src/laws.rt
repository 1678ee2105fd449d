//! What holds of terms alone.

ghost use Rattle.trace_terms.specs.Equality.{TellsTerms, TellsPids, TellsAtoms};

use crate::atom::Atom;
use crate::term::{Pid, Term};

/// By `==` two values are equal exactly where they are the same term, pid or atom.
pub fn equal_terms()
    ensures terms { TellsTerms ⟦<Term as PartialEq>⟧.eq }
    ensures pids { TellsPids ⟦<Pid as PartialEq>⟧.eq }
    ensures atoms { TellsAtoms ⟦<Atom as PartialEq>⟧.eq }
{}

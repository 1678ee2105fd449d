//! Atoms.
ghost use Rattle.std.specs.Prelude.{◌≡◌, ◌<◌, ◌≤◌, ◌*◌, ◌↔◌, length, IfOk, IsTrue};
ghost use Rattle.std.specs.{Str.chars, Cmp.partial_equiv_from_equiv, Cmp.Lexicographic.nat_list_eq_equiv, Cmp.Lexicographic.pointwise};
ghost use Rattle.std.specs.Prelude.{nat_eq};

use crate::fault::{AtomFault, NoMemory};
use std::alloc::Global;
use std::marker::Model;

/// A text of at most 255 characters.
#[derive(Debug, Drop)]
pub struct Atom {
    text: String,
}

// An atom is the bytes of its text.
impl Model for Atom {
    ghost use Rattle.std.specs.Prelude.{◌≤◌, ℕ, List, length, string_bytes};
    ghost use Rattle.std.specs.Str.{chars};

    ghost Value = { List ℕ };

    ghost view = { λ atom. string_bytes atom.text };

    ghost invariant = { λ atom. length (chars (string_bytes atom.text)) ≤ 255 };
}

impl Atom {
    /// The longest atom's number of characters.
    pub const MAX_CHARS: usize = 255;

    /// The atom of this text.
    pub fn new(alloc: Global, text: &str) -> Result<Atom, AtomFault>
        ensures made { IfOk result (λ atom. atom ≡ text.now) }
        ensures too_long { (result ≡ Err AtomFault.TooLong) ↔ (255 < length (chars text.now)) }
    {
        if is_too_long(text) {
            return Err(AtomFault::TooLong);
        }
        Ok(Atom {
            text: String::from_str(alloc, text)?,
        })
    }

    /// The atom's text.
    pub fn text(&self) -> &str
        ensures bytes { result.now ≡ self.now }
        ensures short { length (chars result.now) ≤ 255 }
    {
        self.text.as_str()
    }

    /// The same atom once more.
    pub fn copy(&self) -> Result<Atom, NoMemory>
        ensures { IfOk result (λ atom. atom ≡ self.now) }
    {
        let text = self.text.clone()?;
        Ok(Atom { text })
    }
}

// Atoms are compared by their texts.
impl PartialEq for Atom {
    ghost eq = { λ a b. pointwise nat_eq a b };

    ghost laws = { partial_equiv_from_equiv nat_list_eq_equiv };

    fn eq(&self, other: &Atom) -> bool {
        self.text() == other.text()
    }
}

impl Eq for Atom {
    ghost laws = { nat_list_eq_equiv };
}

/// Whether a text has more characters than an atom may have. Only a text of more bytes than that
/// is counted.
fn is_too_long(text: &str) -> bool
    ensures { IsTrue result ↔ (255 < length (chars text.now)) }
{
    if text.len() <= Atom::MAX_CHARS {
        return false;
    }
    char_count(text) > Atom::MAX_CHARS
}

fn char_count(text: &str) -> usize
    ensures { result ≡ length (chars text.now) }
{
    text.chars().count()
}

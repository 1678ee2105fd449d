//! What holds of spellings alone.

ghost use Rattle.std.specs.Prelude.{◌≡◌, ◌<◌, ◌≤◌, ℕ, List, ◌++◌, Ok, Err, length};
ghost use Rattle.trace_terms.specs.Data.{Data, depth};
ghost use Rattle.ext_format.specs.{Canonical.canonical, Fits.Fits, Reading.whole_at, Spelling.Spells};
ghost use Rattle.ext_format.specs.declared.fault.DecodeFault.TheVariants.{Truncated};

/// No spelling begins another, so bytes have one reading, whatever follows it.
pub fn one_reading()
    ensures { (t u : Data) (a b x y : List ℕ) → Spells t a → Spells u b → a ++ x ≡ b ++ y → (t ≡ u)
        × (a ≡ b) }
{}

/// A spelling is read as its term and its length, whatever follows it.
pub fn spelled_is_read()
    ensures { (t : Data) (bytes rest : List ℕ) → Spells t bytes
        → whole_at (bytes ++ rest) ≡ Ok (t, length bytes) }
{}

/// A spelling that is cut short, at whatever offset, is read as `Truncated`.
pub fn cut_is_truncated()
    ensures { (t : Data) (bytes rest : List ℕ) → Spells t (bytes ++ rest) → 0 < length rest
        → whole_at bytes ≡ Err Truncated }
{}

/// The canonical spelling of a term that isn't too deep or too long is a spelling of it.
pub fn canonical_is_spelled()
    ensures { (t : Data) → Fits t → depth t ≤ 64 → length (canonical t) ≤ 65531
        → Spells t (canonical t) }
{}

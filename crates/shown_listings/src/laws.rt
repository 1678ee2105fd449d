//! What the definitions of a text up to an empty line come to.
ghost use Rattle.std.specs.Prelude.{◌≡◌, ℕ, true, false, List, ◌∷◌, ◌++◌};
ghost use Rattle.shown_listings.specs.Ends.{has_empty, before_empty, IsFilledLines};

/// All of a text of whole lines, none of which is empty, stands before an empty line. Where an empty line comes behind it,
/// that is the first, whatever follows.
pub fn ends_at_the_first_empty_line()
    ensures none { (text : List ℕ) → IsFilledLines text → (before_empty true text ≡ text)
        × (has_empty true text ≡ false) }
    ensures first { (text more : List ℕ) → IsFilledLines text
        → (before_empty true (text ++ 10 ∷ more) ≡ text)
        × (has_empty true (text ++ 10 ∷ more) ≡ true) }
{}

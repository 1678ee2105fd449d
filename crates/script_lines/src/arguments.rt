//! The words after a keyword, of which a line has so many.
ghost use Rattle.std.specs.Prelude.{◌≡◌, ◌≢◌, ◌∷◌, [], MatchOption, length};
ghost use Rattle.script_lines.specs.Spellings.{IsFound, IsNumber, IsNumberIn, Sole, texts};

use crate::spelling::{number, within};

/// The first word, and those after it; None where there is no word.
pub fn first<'w, 't>(words: &'w [&'t str]) -> Option<(&'t str, &'w [&'t str])>
    ensures { MatchOption result (texts words.now ≡ [])
        (λ x. texts words.now ≡ x.0.now ∷ texts x.1.now) }
{
    let [first, rest @ ..] = words else {
        return None;
    };
    Some((first, rest))
}

/// The only word; None where there are none or more.
pub fn one<'t>(words: &[&'t str]) -> Option<&'t str>
    ensures { MatchOption result (length (texts words.now) ≢ 1)
        (λ w. texts words.now ≡ w.now ∷ []) }
{
    let [a] = words else {
        return None;
    };
    Some(a)
}

/// The two words; None where there are fewer or more.
pub fn two<'t>(words: &[&'t str]) -> Option<(&'t str, &'t str)>
    ensures { MatchOption result (length (texts words.now) ≢ 2)
        (λ w. texts words.now ≡ w.0.now ∷ w.1.now ∷ []) }
{
    let [a, b] = words else {
        return None;
    };
    Some((a, b))
}

/// The three words; None where there are fewer or more.
pub fn three<'t>(words: &[&'t str]) -> Option<(&'t str, &'t str, &'t str)>
    ensures { MatchOption result (length (texts words.now) ≢ 3)
        (λ w. texts words.now ≡ w.0.now ∷ w.1.now ∷ w.2.now ∷ []) }
{
    let [a, b, c] = words else {
        return None;
    };
    Some((a, b, c))
}

/// The number that the only word spells; None where there isn't one word that spells one.
pub fn sole_number(words: &[&str]) -> Option<u64>
    ensures { IsFound (Sole IsNumber (texts words.now)) result }
{
    number(one(words)?)
}

/// The number from `least` to `most` that the only word spells; None where there isn't one word that spells one.
pub fn sole_within(words: &[&str], least: u32, most: u32) -> Option<u32>
    ensures { IsFound (Sole (IsNumberIn least most) (texts words.now)) result }
{
    within(one(words)?, least, most)
}

//! What holds of the lines that a choice asks for.

ghost use Rattle.std.specs.Prelude.{◌≡◌, ◌∷◌, ◌++◌, [], ◌+◌, ◌<◌, ℕ, List, Some, None, length, true, false, flat_map};
ghost use Rattle.std.specs.List.{AllByRecursion};
ghost use Rattle.entry_codec.specs.Entries.{Entry};
ghost use Rattle.trace_text.specs.declared.style.Style.{Style};
ghost use Rattle.trace_text.specs.Choosing.{Asks, chooses, ends, has_byte, inside, names_of};
ghost use Rattle.trace_text.specs.Lines.{AreLines, EachLine, HasRow, asks_in, ends_in, kept};

/// Without a choice a listing has a line, or an object, for each entry. Of these a listing by a choice has those of the
/// entries that are asked for, in their order, and nothing else; behind the first entry at which it ends stands an empty
/// line.
pub fn chosen_lines_are_kept()
    ensures each { (style : Style) (n : ℕ) (es : List Entry) (text : List ℕ) → asks_in style ≡ None
        → AreLines style n es text → (lines : List (List ℕ))
        × EachLine style.notation style.wording n es lines × (text ≡ flat_map (λ l. l) lines) }
    ensures kept { (style : Style) (asks : Asks) (n : ℕ) (es : List Entry) (text : List ℕ)
        → asks_in style ≡ Some asks → AllByRecursion (HasRow style.notation style.wording) es
        → ends_in asks n es ≡ false → AreLines style n es text → (lines : List (List ℕ))
        × EachLine style.notation style.wording n es lines
        × (text ≡ flat_map (λ l. l) (kept asks n es lines)) }
    ensures last { (style : Style) (asks : Asks) (n : ℕ) (es : List Entry) (e : Entry)
        (text : List ℕ) → asks_in style ≡ Some asks
        → AllByRecursion (HasRow style.notation style.wording) (es ++ e ∷ [])
        → ends_in asks n es ≡ false → ends asks (n + length es) ≡ true
        → AreLines style n (es ++ e ∷ []) text → (lines : List (List ℕ))
        × EachLine style.notation style.wording n (es ++ e ∷ []) lines
        × (text ≡ flat_map (λ l. l) (kept asks n (es ++ e ∷ []) lines) ++ 10 ∷ []) }
    // Each line may stand there.
    ensures some { (style : Style) (asks : Asks) (n : ℕ) (es : List Entry) (lines : List (List ℕ))
        → asks_in style ≡ Some asks → ends_in asks n es ≡ false
        → EachLine style.notation style.wording n es lines
        → AreLines style n es (flat_map (λ l. l) (kept asks n es lines)) }
    // Behind an entry at which a listing ends none is asked for.
    ensures over { (asks : Asks) (n m : ℕ) (e : Entry) → ends asks n ≡ true → n < m
        → chooses asks m e ≡ false }
{}

/// The texts by which a process is asked for, beside the one that a listing shows and without angle brackets: `NODE.ID.SERIAL`;
/// these with its creation and without, where the quotes of NODE are left out; and `0.ID.SERIAL`.
pub fn processes_have_names()
    ensures { (node id serial creation : List ℕ) → has_byte 46 id ≡ false
        → has_byte 46 serial ≡ false → has_byte 46 creation ≡ false
        → names_of (inside 60 62
        (60 ∷ (((node ++ 46 ∷ (id ++ 46 ∷ serial)) ++ 46 ∷ creation) ++ 62 ∷ [])))
        ≡ (node ++ 46 ∷ (id ++ 46 ∷ serial))
        ∷ (inside 39 39 node ++ 46 ∷ ((id ++ 46 ∷ serial) ++ 46 ∷ creation))
        ∷ (inside 39 39 node ++ 46 ∷ (id ++ 46 ∷ serial)) ∷ (48 ∷ (46 ∷ (id ++ 46 ∷ serial))) ∷ [] }
{}

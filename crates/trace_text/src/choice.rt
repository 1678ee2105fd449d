//! Which entries are listed.
ghost use Rattle.std.specs.Prelude.{◌≡◌, ◌∷◌, ◌++◌, ℕ, List, [], length};
ghost use Rattle.std.specs.List.{list_any};
ghost use Rattle.std.specs.Option.{option_map};
ghost use Rattle.std.specs.Prelude.{string_bytes};
ghost use Rattle.std.specs.Str.{bytes_eq};
ghost use Rattle.trace_text.specs.Choosing.{asked_of, asks_of, asks_no_text, asks_nothing, has_word, is_from, is_to, ends, before_last, inside, is_named, is_text, is_shown, names_by, names_kind, names_nothing, names_of, names_part, suits_opaque, suits_part};
ghost use Rattle.trace_text.specs.Lines.{asks_opaque, asks_part};

use crate::message::{behind, front};

/// A function that is called or returned from.
#[derive(Drop)]
pub struct FunctionAsked {
    /// Its module, with or without quotes.
    pub module: String,
    /// Its name, where that is asked for.
    pub name: Option<String>,
    /// The number of its arguments, where that is asked for.
    pub arity: Option<u64>,
}

/// Kinds, processes and functions.
#[derive(Drop)]
pub struct Filter {
    /// Words for kinds, with commas between them.
    pub kinds: Option<String>,
    /// Traced processes: the texts by which they are asked for.
    pub pids: Vec<String>,
    pub functions: Vec<FunctionAsked>,
}

impl Filter {
    /// Whether it names nothing.
    #[inline(always)]
    pub fn is_empty(&self) -> bool
        ensures { result ≡ names_nothing (asked_of self.now) }
    {
        self.kinds.is_none() && self.pids.is_empty() && self.functions.is_empty()
    }

    /// Whether it names the kind of this word.
    #[inline(always)]
    pub fn names_kind(&self, kind: &[u8]) -> bool
        ensures { result ≡ names_kind (asked_of self.now).kinds kind.now }
    {
        match &self.kinds {
            Some(words) => is_among(kind, words.as_bytes()),
            None => false,
        }
    }

    /// Whether it names parts of long messages that aren't whole: by their word, or with messages that can't be read.
    fn names_part(&self) -> bool
        ensures { result ≡ names_part (asked_of self.now).kinds }
    {
        self.names_kind(b"part") || self.names_kind(b"opaque")
    }
}

/// Which entries of a trace are to be listed: those that all of this holds of.
#[derive(Drop)]
pub struct Choice {
    /// The number of the first entry, where one is asked for.
    pub from: Option<u64>,
    /// The number of the last entry, behind which a listing ends.
    pub to: Option<u64>,
    /// A listing goes on to its end all the same, and its other entries are passed over.
    pub is_whole: bool,
    /// Messages of one of the kinds, of one of the processes and of one of the functions, where some are named.
    pub only: Filter,
    /// Messages of none of these kinds, processes and functions.
    pub not: Filter,
}

impl Choice {
    /// Whether nothing is asked for, so that every entry is to be listed.
    pub fn is_all(&self) -> bool
        ensures { result ≡ asks_nothing (asks_of self.now) }
    {
        self.has_no_text() && self.from.is_none() && self.to.is_none()
    }

    /// Whether nothing is asked of a message but its number.
    pub fn has_no_text(&self) -> bool
        ensures { result ≡ asks_no_text (asks_of self.now) }
    {
        self.only.is_empty() && self.not.is_empty()
    }

    /// Whether the number isn't below the first that is asked for.
    pub fn is_not_before(&self, number: u64) -> bool
        ensures { result ≡ is_from (asks_of self.now).from number }
    {
        self.from.is_none_or(|first| first <= number)
    }

    /// Whether the number isn't above the last that is asked for.
    pub fn is_not_later(&self, number: u64) -> bool
        ensures { result ≡ is_to (asks_of self.now).to number }
    {
        self.to.is_none_or(|last| number <= last)
    }

    /// Whether messages of this number that aren't read are asked for.
    pub fn asks_opaque(&self, number: u64) -> bool
        ensures { result ≡ asks_opaque (asks_of self.now) number }
    {
        self.is_not_later(number) && self.is_not_before(number) && self.suits_opaque()
    }

    /// Whether parts of this number are asked for.
    pub fn asks_part(&self, number: u64) -> bool
        ensures { result ≡ asks_part (asks_of self.now) number }
    {
        self.is_not_later(number) && (self.is_not_before(number) && self.suits_part())
    }

    /// Whether no entry that comes after the one of this number is to be listed.
    pub fn ends_with(&self, number: u64) -> bool
        ensures { result ≡ ends (asks_of self.now) number }
    {
        !self.is_whole && self.to.is_some_and(|last| last <= number)
    }

    /// Whether a message that can't be read suits the choice: the kinds that it names, if it does, have `opaque`, it names no
    /// process and no function, and it doesn't exclude `opaque`.
    pub fn suits_opaque(&self) -> bool
        ensures { result ≡ suits_opaque (asks_of self.now) }
    {
        let only = &self.only;
        (only.kinds.is_none() || only.names_kind(b"opaque"))
            && only.pids.is_empty()
            && only.functions.is_empty()
            && !self.not.names_kind(b"opaque")
    }

    /// Whether a part of a long message that isn't whole suits the choice: the kinds that it names, if it does, have `part` or
    /// `opaque`, it names no process and no function, and it excludes neither.
    fn suits_part(&self) -> bool
        ensures { result ≡ suits_part (asks_of self.now) }
    {
        let only = &self.only;
        let is_named = only.kinds.is_none() || only.names_part();
        is_named && only.pids.is_empty() && only.functions.is_empty() && !self.not.names_part()
    }
}

/// Whether a word is one of those that have commas between them.
#[inline(never)]
fn is_among(word: &[u8], words: &[u8]) -> bool
    ensures { result ≡ has_word words.now word.now }
{
    words.split(|byte| *byte == b',').any(|one| one == word)
}

/// Whether `shown` is `asked` between these two signs.
#[inline(always)]
fn is_between(opening: u8, closing: u8, asked: &[u8], shown: &[u8]) -> bool
    ensures { result ≡ bytes_eq shown.now (opening ∷ (asked.now ++ closing ∷ [])) }
{
    let Some((first, rest)) = shown.split_first() else {
        return false;
    };
    let Some((last, middle)) = rest.split_last() else {
        return false;
    };
    *first == opening && (middle == asked && *last == closing)
}

/// Whether `shown` is `asked` between single quotes.
#[inline(never)]
fn is_quoted(asked: &[u8], shown: &[u8]) -> bool
    ensures { result ≡ bytes_eq shown.now (39 ∷ (asked.now ++ 39 ∷ [])) }
{
    is_between(b'\'', b'\'', asked, shown)
}

/// Whether `shown` is `asked`, or `asked` between these two signs.
#[inline(always)]
pub fn is_text(opening: u8, closing: u8, asked: &[u8], shown: &[u8]) -> bool
    ensures { result ≡ is_text opening closing asked.now shown.now }
{
    shown == asked || is_between(opening, closing, asked, shown)
}

/// Whether the first `size` bytes of a text are this atom, with or without quotes.
#[inline(always)]
pub fn begins_so(asked: &[u8], text: &[u8], size: usize) -> bool
    ensures { (own rest : List ℕ) → text.now ≡ own ++ rest → size ≡ length own
        → result ≡ is_text 39 39 asked.now own }
{
    if size == asked.len() {
        match text.split_at_checked(size) {
            Some((shown, _)) => shown == asked,
            None => false,
        }
    } else {
        is_quoted(asked, front(text, size))
    }
}

/// Whether the atom that the first `size` bytes of `text` show is the one that is asked for; true where none is.
#[inline(always)]
pub fn is_name(asked: &Option<String>, text: &[u8], size: usize) -> bool
    ensures { (own rest : List ℕ) → text.now ≡ own ++ rest → size ≡ length own
        → result ≡ is_shown (option_map string_bytes asked.now) own }
{
    match asked {
        Some(asked) => begins_so(asked.as_bytes(), text, size),
        None => true,
    }
}

/// What stands before the last such byte of a text; nothing where there is none.
#[tactic(auto, using(crate::proofs::Named::goes_on, crate::proofs::Named::stops, crate::proofs::Named::runs_out))]
fn before_last(byte: u8, text: &[u8]) -> &[u8]
    ensures { result.now ≡ before_last byte text.now }
{
    let mut front = text;
    while let Some((last, before)) = front.split_last() {
        if *last == byte {
            return before;
        }
        front = before;
    }
    front
}

/// What stands between two signs, of a text that begins with the first of them; any other text as it is.
fn inside(opening: u8, closing: u8, text: &[u8]) -> &[u8]
    ensures { result.now ≡ inside opening closing text.now }
{
    match text.split_first() {
        Some((first, rest)) if *first == opening => before_last(closing, rest),
        _ => text,
    }
}

/// Whether a text is two others in a row.
fn is_joined(text: &[u8], first: &[u8], second: &[u8]) -> bool
    ensures { result ≡ bytes_eq text.now (first.now ++ second.now) }
{
    match text.strip_prefix(first) {
        Some(rest) => rest == second,
        None => false,
    }
}

/// Whether `asked` is a text by which a process of this node is asked for, that has this text with its creation and without.
fn is_name_by(asked: &[u8], node: &[u8], whole: &[u8], short: &[u8]) -> bool
    ensures { result ≡ list_any (λ name. bytes_eq asked.now name)
        (names_by node.now whole.now short.now) }
{
    let bare = inside(b'\'', b'\'', node);
    let numbers = behind(short, node.len());
    asked == short
        || is_joined(asked, bare, behind(whole, node.len()))
        || is_joined(asked, bare, numbers)
        || is_joined(asked, b"0", numbers)
}

/// Whether `asked` is another text by which a process is asked for, that has this text without its angle brackets.
fn is_other_name(asked: &[u8], whole: &[u8]) -> bool
    ensures { result ≡ list_any (λ name. bytes_eq asked.now name) (names_of whole.now) }
{
    let short = before_last(b'.', whole);
    let node = before_last(b'.', before_last(b'.', short));
    is_name_by(asked, node, whole, short)
}

/// Whether a process or a port that a listing shows so is asked for by this text.
pub fn is_named(asked: &[u8], shown: &[u8]) -> bool
    ensures { result ≡ is_named asked.now shown.now }
{
    is_text(b'<', b'>', asked, shown)
        || is_joined(asked, before_last(b'.', shown), b">")
        || is_other_name(inside(b'<', b'>', asked), inside(b'<', b'>', shown))
}

//! The words of a script that mean the same in each line.
ghost use Rattle.std.specs.Prelude.{◌≡◌, ◌∷◌, ℕ, List};
ghost use Rattle.script_lines.specs.{Keywords.text_of, Keywords.all_keywords, Keywords.keyword_among, Spellings.IsFoundAs, Spellings.texts};

/// What a line or an event begins with, and what kind it is of.
#[derive(Clone, Copy)]
pub enum Keyword {
    Store,
    Bytes,
    Fuse,
    FailOnce,
    Create,
    Resume,
    Files,
    List,
    Wipe,
    Crash,
    Put,
    Lose,
    Flush,
    Seal,
    Tick,
    Abandon,
    Close,
    Desk,
    Stamp,
    Mono,
    Tracee,
    Emit,
    Hand,
    FlushFor,
    Counts,
    File,
    Wrap,
    Time,
    Kept,
    Low,
    High,
    Receive,
    Send,
    SendLost,
    Call,
    Return,
    Exception,
}

/// The text of each keyword.
const TEXTS: [(&str, Keyword); 37] = [
    ("store", Keyword::Store),
    ("bytes", Keyword::Bytes),
    ("fuse", Keyword::Fuse),
    ("failonce", Keyword::FailOnce),
    ("create", Keyword::Create),
    ("resume", Keyword::Resume),
    ("files", Keyword::Files),
    ("list", Keyword::List),
    ("wipe", Keyword::Wipe),
    ("crash", Keyword::Crash),
    ("put", Keyword::Put),
    ("lose", Keyword::Lose),
    ("flush", Keyword::Flush),
    ("seal", Keyword::Seal),
    ("tick", Keyword::Tick),
    ("abandon", Keyword::Abandon),
    ("close", Keyword::Close),
    ("desk", Keyword::Desk),
    ("stamp", Keyword::Stamp),
    ("mono", Keyword::Mono),
    ("tracee", Keyword::Tracee),
    ("emit", Keyword::Emit),
    ("hand", Keyword::Hand),
    ("flushfor", Keyword::FlushFor),
    ("counts", Keyword::Counts),
    ("file", Keyword::File),
    ("wrap", Keyword::Wrap),
    ("time", Keyword::Time),
    ("kept", Keyword::Kept),
    ("low", Keyword::Low),
    ("high", Keyword::High),
    ("receive", Keyword::Receive),
    ("send", Keyword::Send),
    ("sendlost", Keyword::SendLost),
    ("call", Keyword::Call),
    ("return", Keyword::Return),
    ("exception", Keyword::Exception),
];

impl Keyword {
    /// The keyword that this text is; None where it is none.
    pub fn named(text: &str) -> Option<Keyword>
        ensures { result ≡ keyword_among all_keywords text.now }
    {
        for (named, keyword) in TEXTS.iter() {
            if text == *named {
                return Some(*keyword);
            }
        }
        None
    }
}

/// The keyword that the words begin with, and the words after it; None where they begin with none.
pub fn keyword_behind<'w, 't>(words: &'w [&'t str]) -> Option<(Keyword, &'w [&'t str])>
    ensures { IsFoundAs {X = Keyword × List (List ℕ)} (λ x. (x.0, texts x.1.now))
        (λ x. texts words.now ≡ text_of x.0 ∷ x.1) result }
{
    let [first, rest @ ..] = words else {
        return None;
    };
    Some((Keyword::named(first)?, rest))
}

//! The events of a script.
ghost use Rattle.std.specs.Prelude.{◌≡◌, ℕ, List, map};
ghost use Rattle.trace_terms.specs.{Data.Data, View.view};
ghost use Rattle.trace_message.specs.Events.{event_view};
ghost use Rattle.ext_format.specs.Spelling.{Spells as SpellsTerm};
ghost use Rattle.script_lines.specs.Keywords.{Behind};
ghost use Rattle.script_lines.specs.Spellings.{IsFound, Two, Three, texts};
ghost use Rattle.script_lines.specs.EventFaults.{IsSpelled, IsSpelledAs};
ghost use Rattle.script_lines.specs.Table.{IsTerm, IsArguments, IsAtom, IsArity, IsEvent};
ghost use Rattle.script_lines.specs.declared.keyword.Keyword.TheVariants as keywords;
ghost use Rattle.script_lines.specs.declared.event.EventFault.TheVariants as faults;

use crate::arguments::{first, one, three, two};
use crate::keyword::{Keyword, keyword_behind};
use crate::spelling::{bytes, within};
use ext_format::{DecodeFault, decode};
use std::alloc::{AllocError, Global};
use trace_message::Event;
use trace_terms::{Atom, AtomFault, Term};
use trace_text::is_plain;

/// Why words give no event, or no part of one.
#[derive(Clone, Copy)]
pub enum EventFault {
    /// They spell none.
    Unspelled,
    NoMemory,
}

impl From<AllocError> for EventFault {
    ghost from_gives = { λ _ e. e ≡ faults.NoMemory };

    fn from(_fault: AllocError) -> EventFault {
        EventFault::NoMemory
    }
}

/// The term that these bytes spell, all of them; `Unspelled` where they spell none.
fn whole_term(alloc: Global, bytes: &[u8]) -> Result<Term, EventFault>
    ensures { IsSpelledAs view (λ t. SpellsTerm t bytes.now) result }
{
    match decode(alloc, bytes) {
        Ok((term, length)) if length == bytes.len() => Ok(term),
        Ok(_) => Err(EventFault::Unspelled),
        Err(DecodeFault::NoMemory) => Err(EventFault::NoMemory),
        Err(_) => Err(EventFault::Unspelled),
    }
}

/// The term whose bytes these hexadecimal digits are; `Unspelled` where they are no term's.
fn term(alloc: Global, hex: &str) -> Result<Term, EventFault>
    ensures { IsSpelledAs view (IsTerm hex.now) result }
{
    let Some(bytes) = bytes(alloc, hex)? else {
        return Err(EventFault::Unspelled);
    };
    whole_term(alloc, &bytes)
}

/// The members of the list whose bytes these hexadecimal digits are; `Unspelled` where they are no list's.
fn members(alloc: Global, hex: &str) -> Result<Vec<Term>, EventFault>
    ensures { IsSpelledAs (λ ts. map view ts.items) (IsArguments hex.now) result }
{
    let found = term(alloc, hex)?;
    match found {
        Term::List(members) => Ok(members),
        _ => Err(EventFault::Unspelled),
    }
}

/// The atom of a word that a listing writes without quotes; `Unspelled` for any other word.
fn atom(alloc: Global, word: &str) -> Result<Atom, EventFault>
    ensures { IsSpelled (IsAtom word.now) result }
{
    if !is_plain(word.as_bytes()) {
        return Err(EventFault::Unspelled);
    }
    match Atom::new(alloc, word) {
        Ok(atom) => Ok(atom),
        Err(AtomFault::TooLong) => Err(EventFault::Unspelled),
        Err(AtomFault::NoMemory) => Err(EventFault::NoMemory),
    }
}

/// The number of a function's arguments that a word spells, 0 to 255; else None.
fn arity(word: &str) -> Option<u8>
    ensures { IsFound (IsArity word.now) result }
{
    u8::try_from(within(word, 0, u32::from(u8::MAX))?).ok()
}

/// Parses the words of a call, module, function and arguments; `Unspelled` where they are none.
fn call(alloc: Global, words: &[&str]) -> Result<Event, EventFault>
    ensures { IsSpelledAs event_view (IsEvent keywords.Call (texts words.now)) result }
{
    let Some((mod_name, fun_name, args)) = three(words) else {
        return Err(EventFault::Unspelled);
    };
    let mod_name = atom(alloc, mod_name)?;
    let fun_name = atom(alloc, fun_name)?;
    let args = members(alloc, args)?;
    Ok(Event::Call {
        mod_name,
        fun_name,
        args,
    })
}

/// Parses a returning function's name, number of arguments and value; `Unspelled` where the words are none.
fn returned(alloc: Global, words: &[&str]) -> Result<(Atom, u8, Term), EventFault>
    ensures { IsSpelledAs {X = List ℕ × ℕ
        × Data} (λ x. (x.0, x.1, view x.2)) (λ x. Three IsAtom IsArity IsTerm (texts words.now) x.0 x.1 x.2) result }
{
    let Some((fun_name, count, value)) = three(words) else {
        return Err(EventFault::Unspelled);
    };
    let Some(arity) = arity(count) else {
        return Err(EventFault::Unspelled);
    };
    let fun_name = atom(alloc, fun_name)?;
    let value = term(alloc, value)?;
    Ok((fun_name, arity, value))
}

/// Parses the words of a return from a function; `Unspelled` where they are none.
fn return_from(alloc: Global, words: &[&str]) -> Result<Event, EventFault>
    ensures { IsSpelledAs event_view (IsEvent keywords.Return (texts words.now)) result }
{
    let Some((mod_name, others)) = first(words) else {
        return Err(EventFault::Unspelled);
    };
    let mod_name = atom(alloc, mod_name)?;
    let (fun_name, arity, value) = returned(alloc, others)?;
    Ok(Event::Return {
        mod_name,
        fun_name,
        arity,
        value,
    })
}

/// Parses the number of a function's arguments, and its exception's class and value; `Unspelled` where the words are none.
fn thrown(alloc: Global, words: &[&str]) -> Result<(u8, Atom, Term), EventFault>
    ensures { IsSpelledAs {X = ℕ × List ℕ
        × Data} (λ x. (x.0, x.1, view x.2)) (λ x. Three IsArity IsAtom IsTerm (texts words.now) x.0 x.1 x.2) result }
{
    let Some((count, kind, value)) = three(words) else {
        return Err(EventFault::Unspelled);
    };
    let Some(arity) = arity(count) else {
        return Err(EventFault::Unspelled);
    };
    let kind = atom(alloc, kind)?;
    let value = term(alloc, value)?;
    Ok((arity, kind, value))
}

/// Parses the words of an exception out of a function; `Unspelled` where they are none.
fn exception_from(alloc: Global, words: &[&str]) -> Result<Event, EventFault>
    ensures { IsSpelledAs event_view (IsEvent keywords.Exception (texts words.now)) result }
{
    let Some((mod_name, behind)) = first(words) else {
        return Err(EventFault::Unspelled);
    };
    let Some((fun_name, others)) = first(behind) else {
        return Err(EventFault::Unspelled);
    };
    let mod_name = atom(alloc, mod_name)?;
    let fun_name = atom(alloc, fun_name)?;
    let (arity, kind, value) = thrown(alloc, others)?;
    Ok(Event::Exception {
        mod_name,
        fun_name,
        arity,
        kind,
        value,
    })
}

/// The two terms that two words spell; `Unspelled` where they spell none.
fn terms(alloc: Global, words: &[&str]) -> Result<(Term, Term), EventFault>
    ensures { IsSpelledAs {X = Data
        × Data} (λ x. (view x.0, view x.1)) (λ x. Two IsTerm IsTerm (texts words.now) x.0 x.1) result }
{
    let Some((message, target)) = two(words) else {
        return Err(EventFault::Unspelled);
    };
    let message = term(alloc, message)?;
    let target = term(alloc, target)?;
    Ok((message, target))
}

fn send(alloc: Global, words: &[&str]) -> Result<Event, EventFault>
    ensures { IsSpelledAs event_view (IsEvent keywords.Send (texts words.now)) result }
{
    let (message, target) = terms(alloc, words)?;
    Ok(Event::Send { message, target })
}

/// Parses the words of a send to a process that isn't there; `Unspelled` where they are none.
fn send_lost(alloc: Global, words: &[&str]) -> Result<Event, EventFault>
    ensures { IsSpelledAs event_view (IsEvent keywords.SendLost (texts words.now)) result }
{
    let (message, target) = terms(alloc, words)?;
    Ok(Event::SendLost { message, target })
}

fn receive(alloc: Global, words: &[&str]) -> Result<Event, EventFault>
    ensures { IsSpelledAs event_view (IsEvent keywords.Receive (texts words.now)) result }
{
    let Some(message) = one(words) else {
        return Err(EventFault::Unspelled);
    };
    let message = term(alloc, message)?;
    Ok(Event::Receive { message })
}

/// Parses a keyword and the words after it as an event; `Unspelled` where they are none.
fn event_of(alloc: Global, keyword: Keyword, words: &[&str]) -> Result<Event, EventFault>
    ensures { IsSpelledAs event_view (IsEvent keyword (texts words.now)) result }
{
    match keyword {
        Keyword::Call => call(alloc, words),
        Keyword::Return => return_from(alloc, words),
        Keyword::Exception => exception_from(alloc, words),
        Keyword::Send => send(alloc, words),
        Keyword::SendLost => send_lost(alloc, words),
        Keyword::Receive => receive(alloc, words),
        _ => Err(EventFault::Unspelled),
    }
}

/// The event that these words spell; `Unspelled` where they spell none.
pub fn event(alloc: Global, words: &[&str]) -> Result<Event, EventFault>
    ensures { IsSpelledAs event_view (Behind IsEvent (texts words.now)) result }
{
    let Some((keyword, others)) = keyword_behind(words) else {
        return Err(EventFault::Unspelled);
    };
    event_of(alloc, keyword, others)
}

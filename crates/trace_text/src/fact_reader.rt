//! What a message of any terms tells: its kind, who is traced, the function that is called, returned from or returned to, the
//! process that a message is sent to, and a registered name.

ghost use Rattle.std.specs.Prelude.{◌≡◌, ◌≤◌, ◌++◌, Some, length, IfOk, OnOk, OnErr};
ghost use Rattle.std.specs.Bool.{then_some};
ghost use Rattle.std.specs.Fmt.{decimal};
ghost use Rattle.std.specs.Option.{option_map};
ghost use Rattle.trace_text.specs.{AnyTerm.AnyTerm, PrettyLines.longest_message, Sights.sight};
ghost use Rattle.trace_text.specs.Facts.{Function, arity_told, names_function};
ghost use Rattle.trace_text.specs.MessageFacts.{IsHeld, IsTextTold, as_told, called_text, facts_in, facts_of};
ghost use Rattle.trace_text.specs.Objects.{arity_text, function_text, unsigned_told};
ghost use Rattle.trace_text.specs.Parts.{IsArity, IsCalledBy, IsSeenSo};

use crate::any_term::Sighted;
use crate::facts::tells_function;
use crate::message::{Arity, Called, function, name, receiver, tracee};
use crate::other_word::OtherWord;
use crate::pretty::{read_message, word_of};
use crate::sight::{Kind, Sight};
use crate::term_text::put_byte;
use crate::told::Told;
use std::alloc::{AllocError, Global};

/// What a message tells. Texts are as a readable listing has them.
#[derive(Clone, Copy)]
pub struct MessageFacts<'t> {
    /// The word for its kind.
    pub kind: &'static str,
    /// The process or port that is traced.
    pub tracee: Option<&'t [u8]>,
    /// The function that is called, returned from or returned to, as `lists:seq/2`.
    pub function: Option<&'t [u8]>,
    /// The process that a message is sent to.
    pub receiver: Option<&'t [u8]>,
    /// The registered name that a process gets or loses, or by which a message is sent.
    pub name: Option<&'t [u8]>,
    /// The message's term.
    pub text: &'t [u8],
}

/// Reads what messages tell. It is used again for the next message.
#[derive(Drop)]
pub struct FactReader {
    told: Sighted,
    function: Vec<u8>,
}

impl FactReader {
    /// No message was read yet.
    pub fn new(alloc: Global) -> FactReader {
        FactReader {
            told: Told::new(alloc),
            function: Vec::new(alloc),
        }
    }

    /// What a message tells; None where it isn't read: its bytes spell no term, or more than one, or they are more than
    /// 268,435,456.
    pub fn read(&mut self, bytes: &[u8]) -> Result<Option<MessageFacts<'_>>, AllocError>
        ensures facts { IfOk result (λ read. option_map as_told read ≡ facts_in bytes.now) }
        ensures text { IfOk result (λ read. IsTextTold bytes.now read) }
        ensures memory { OnErr result (length bytes.now ≤ longest_message) }
    {
        let Some(kind) = read_message(&mut self.told, bytes)? else {
            return Ok(None);
        };
        let tells = put_called_text(&mut self.function, kind, &self.told.seen, &self.told.text)?;
        Ok(Some(self.facts(kind, tells)))
    }

    /// What the message tells that was read last, of this kind. It tells of the function that was put, or else of none.
    fn facts(&self, kind: Option<Kind>, tells: bool) -> MessageFacts<'_>
        ensures facts { (t : AnyTerm) → IsHeld t self.now kind tells → as_told result ≡ facts_of t }
        ensures text { result.text.now ≡ self.now.told.text.items }
    {
        MessageFacts {
            kind: word_of(kind),
            tracee: tracee(&self.told.seen, &self.told.text),
            function: tells.then_some(self.function.as_slice()),
            receiver: receiver(&self.told, kind),
            name: name(&self.told, kind),
            text: &self.told.text,
        }
    }
}

/// Whether messages of this kind tell of a function, also of one to which a process is back.
fn names_function(kind: Option<Kind>) -> bool
    ensures { result ≡ names_function kind }
{
    matches!(kind, Some(Kind::Other(OtherWord::ReturnTo))) || tells_function(kind)
}

/// Puts the text of the function that a message of this kind tells of in place of another one; answers whether it tells of
/// one.
fn put_called_text(
    out: &mut Vec<u8>,
    kind: Option<Kind>,
    seen: &[Sight],
    text: &[u8],
) -> Result<bool, AllocError>
    ensures { (t : AnyTerm) → kind ≡ (sight t).kind → IsSeenSo t seen.now text.now
        → IfOk result (λ tells. then_some tells out.new.items ≡ called_text t) }
{
    out.clear();
    if !names_function(kind) {
        return Ok(false);
    }
    let Some(called) = function(seen, text) else {
        return Ok(false);
    };
    put_function_text(out, &called)?;
    Ok(true)
}

/// A function as a readable listing would have it.
fn put_function_text(out: &mut Vec<u8>, called: &Called<'_>) -> Result<(), AllocError>
    ensures { (f : Function) → IsCalledBy called.now f
        → OnOk result (out.new.items ≡ out.old.items ++ function_text f) }
{
    out.extend_from_slice(called.of_module())?;
    out.push(b':')?;
    out.extend_from_slice(called.of_name())?;
    put_arity_text(out, called.arity())
}

/// How many arguments there are, after a slash, where that is told.
fn put_arity_text(out: &mut Vec<u8>, arity: Arity<'_>) -> Result<(), AllocError>
    ensures { (t : AnyTerm) → IsArity arity.entry t
        → OnOk result (out.new.items ≡ out.old.items ++ arity_text (arity_told t)) }
{
    match arity {
        Arity::Counted(count) => put_count_text(out, count),
        Arity::Told(told) => put_told_text(out, told),
        Arity::Untold => Ok(()),
    }
}

/// A number after a slash.
fn put_count_text(out: &mut Vec<u8>, count: u8) -> Result<(), AllocError>
    ensures { OnOk result (out.new.items ≡ out.old.items ++ arity_text (Some (decimal count))) }
{
    out.push(b'/')?;
    put_byte(out, count)
}

/// The text of an integer after a slash, unless it has a sign.
fn put_told_text(out: &mut Vec<u8>, told: &[u8]) -> Result<(), AllocError>
    ensures { OnOk result (out.new.items ≡ out.old.items ++ arity_text (unsigned_told told.now)) }
{
    if let [b'-', ..] = told {
        return Ok(());
    }
    out.push(b'/')?;
    out.extend_from_slice(told)
}

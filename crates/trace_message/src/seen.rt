//! Which kind of event a term tells of.
ghost use Rattle.std.specs.Prelude.{◌≡◌, ◌↔◌, Some, None, map};
ghost use Rattle.trace_message.specs.declared.seen.Seen.{Seen as TheSeen};
ghost use Rattle.trace_message.specs.Kinds.{IsMessage};
ghost use Rattle.trace_message.specs.Rows as rows;
ghost use Rattle.trace_message.specs.Shapes as shapes;
ghost use Rattle.trace_terms.specs.View.{view};

use crate::word::Word;
use trace_terms::Term;

/// The kind of event that a trace message tells of.
#[derive(Clone, Copy, Debug, PartialEq, Eq)]
pub enum Seen {
    Call,
    Return,
    Exception,
    Send,
    SendLost,
    Receive,
}

/// The kind of a trace message, by its shape alone (ERTS, `erlang:trace/3`); None of every other
/// term.
pub fn classify(term: &Term) -> Option<Seen>
    ensures kind { (seen : TheSeen) → (result ≡ Some seen) ↔ IsMessage seen (view term.now) }
    ensures none { (result ≡ None) ↔ ((seen : TheSeen) → IsMessage seen (view term.now) → ⊥) }
{
    match term {
        Term::Tuple(parts) => parts_kind(parts),
        _ => None,
    }
}

/// The kind of a tuple with these members.
fn parts_kind(parts: &[Term]) -> Option<Seen>
    ensures { result ≡ shapes.parts_kind (map view parts.now) }
{
    let [Term::Atom(head), Term::Pid(_), row @ ..] = parts else {
        return None;
    };
    match Word::named(head.text())? {
        Word::Trace => row_kind(row),
        Word::TraceTs => stamped_row_kind(row),
        _ => None,
    }
}

/// The kind of a row after which a time stamp stands.
fn stamped_row_kind(row: &[Term]) -> Option<Seen>
    ensures { result ≡ shapes.stamped_row_kind (map view row.now) }
{
    let (last, row) = row.split_last()?;
    if is_stamp(last) { row_kind(row) } else { None }
}

/// `{Mega,Sec,Micro}`, or the monotonic time.
fn is_stamp(term: &Term) -> bool
    ensures { result ≡ shapes.is_stamp (view term.now) }
{
    match term {
        Term::Tuple(parts) => are_integers(parts),
        Term::Int(_) => true,
        _ => false,
    }
}

/// Three integers.
fn are_integers(parts: &[Term]) -> bool
    ensures { result ≡ shapes.are_integers (map view parts.now) }
{
    match parts {
        [mega, sec, micro] => is_int(mega) && is_int(sec) && is_int(micro),
        _ => false,
    }
}

/// The kind of what stands after the pid.
fn row_kind(row: &[Term]) -> Option<Seen>
    ensures { result ≡ shapes.row_kind (map view row.now) }
{
    let [Term::Atom(word), row @ ..] = row else {
        return None;
    };
    match Word::named(word.text())? {
        Word::Call => is_call(row).then_some(Seen::Call),
        Word::ReturnFrom => is_return(row).then_some(Seen::Return),
        Word::ExceptionFrom => is_exception(row).then_some(Seen::Exception),
        Word::Send => is_two(row).then_some(Seen::Send),
        Word::SendToNonExistingProcess => is_two(row).then_some(Seen::SendLost),
        Word::Receive => is_one(row).then_some(Seen::Receive),
        Word::Trace | Word::TraceTs => None,
    }
}

/// What stands after `call`.
fn is_call(row: &[Term]) -> bool
    ensures { result ≡ shapes.is_call (map view row.now) }
{
    match row {
        [Term::Tuple(function)] => is_called(function),
        _ => false,
    }
}

/// What stands after `return_from`.
fn is_return(row: &[Term]) -> bool
    ensures { result ≡ shapes.is_return (map view row.now) }
{
    match row {
        [Term::Tuple(function), _] => is_function(function),
        _ => false,
    }
}

/// What stands after `exception_from`.
fn is_exception(row: &[Term]) -> bool
    ensures { result ≡ shapes.is_exception (map view row.now) }
{
    match row {
        [Term::Tuple(function), Term::Tuple(reason)] => is_function(function) && is_reason(reason),
        _ => false,
    }
}

fn is_one(row: &[Term]) -> bool
    ensures { result ≡ rows.is_one (map view row.now) }
{
    matches!(row, [_])
}

fn is_two(row: &[Term]) -> bool
    ensures { result ≡ rows.is_two (map view row.now) }
{
    matches!(row, [_, _])
}

/// `{M,F,Args}` or `{M,F,Arity}`.
fn is_called(parts: &[Term]) -> bool
    ensures { result ≡ shapes.is_called (map view parts.now) }
{
    match parts {
        [module, function, last] => {
            is_atom(module) && is_atom(function) && (is_list(last) || is_int(last))
        }
        _ => false,
    }
}

/// `{M,F,Arity}`.
fn is_function(parts: &[Term]) -> bool
    ensures { result ≡ shapes.is_function (map view parts.now) }
{
    match parts {
        [module, function, arity] => is_atom(module) && is_atom(function) && is_int(arity),
        _ => false,
    }
}

/// `{Class,Value}`.
fn is_reason(parts: &[Term]) -> bool
    ensures { result ≡ shapes.is_reason (map view parts.now) }
{
    match parts {
        [class, _] => is_atom(class),
        _ => false,
    }
}

fn is_atom(term: &Term) -> bool
    ensures { result ≡ shapes.is_atom (view term.now) }
{
    matches!(term, Term::Atom(_))
}

fn is_int(term: &Term) -> bool
    ensures { result ≡ shapes.is_int (view term.now) }
{
    matches!(term, Term::Int(_))
}

fn is_list(term: &Term) -> bool
    ensures { result ≡ shapes.is_list (view term.now) }
{
    matches!(term, Term::List(_))
}

//! Terms, and the names of processes.
ghost use Rattle.std.specs.Prelude.{◌≡◌, IfOk, min};
ghost use Rattle.trace_terms.specs.{Data.depth, Data.greatest_depth, View.view, View.members_view};

use crate::atom::Atom;
use crate::fault::NoMemory;

/// The name of a process: the node that made it, and three numbers of that node's. All bits of
/// the numbers are kept (NEW_PID_EXT of the External Term Format).
#[derive(Debug, PartialEq, Eq, Drop)]
pub struct Pid {
    pub node: Atom,
    pub id: u32,
    pub serial: u32,
    pub creation: u32,
}

/// A term.
#[derive(Debug, PartialEq, Eq, Drop)]
pub enum Term {
    Int(i64),
    Atom(Atom),
    Pid(Pid),
    Tuple(Vec<Term>),
    /// A proper list; a text as Erlang writes it, `"ab"`, is the list of its characters' codes.
    List(Vec<Term>),
    Binary(Vec<u8>),
}

/// What `Term::depth` answers for every greater depth.
const DEEPEST: u32 = 65;

impl Term {
    /// How deep tuples and lists are nested: 1 for one without members, 0 for every other term.
    /// Every depth above 65 is answered as 65, and no deeper part of the term is visited.
    pub fn depth(&self) -> u32
        ensures { result ≡ min 65 (depth (view self.now)) }
    {
        capped_depth(self, DEEPEST)
    }

    /// The same term once more.
    pub fn copy(&self) -> Result<Term, NoMemory>
        ensures { IfOk result (λ copied. view copied ≡ view self.now) }
    {
        copy_term(self)
    }
}

/// The depth of a term, or `cap` where it is deeper.
#[cycle(depth)]
fn capped_depth(term: &Term, cap: u32) -> u32
    ensures { result ≡ min cap (depth (view term.now)) }
{
    if cap == 0 {
        return 0;
    }
    match term {
        Term::Tuple(members) | Term::List(members) => 1 + capped_greatest_depth(members, cap - 1),
        Term::Int(_) | Term::Atom(_) | Term::Pid(_) | Term::Binary(_) => 0,
    }
}

/// The depth of the deepest member, or `cap` where it is deeper.
#[cycle(depth)]
fn capped_greatest_depth(members: &Vec<Term>, cap: u32) -> u32
    ensures { result ≡ min cap (greatest_depth (members_view members.now.items)) }
{
    let mut greatest = 0;
    for member in members {
        greatest = capped_depth(member, cap).max(greatest);
    }
    greatest
}

#[cycle(copy)]
fn copy_term(term: &Term) -> Result<Term, NoMemory>
    ensures { IfOk result (λ copied. view copied ≡ view term.now) }
{
    match term {
        Term::Int(number) => Ok(Term::Int(*number)),
        Term::Atom(atom) => Ok(Term::Atom(atom.copy()?)),
        Term::Pid(pid) => Ok(Term::Pid(pid.copy()?)),
        Term::Tuple(members) => Ok(Term::Tuple(copy_members(members)?)),
        Term::List(members) => Ok(Term::List(copy_members(members)?)),
        Term::Binary(bytes) => Ok(Term::Binary(Vec::from_slice(*bytes.allocator(), bytes)?)),
    }
}

#[cycle(copy)]
fn copy_members(members: &Vec<Term>) -> Result<Vec<Term>, NoMemory>
    ensures { IfOk result (λ copied. members_view copied.items ≡ members_view members.now.items) }
{
    let mut copied = Vec::with_capacity(*members.allocator(), members.len())?;
    for member in members {
        copied.push(copy_term(member)?)?;
    }
    Ok(copied)
}

impl Pid {
    /// The same name once more.
    pub fn copy(&self) -> Result<Pid, NoMemory>
        ensures { IfOk result (λ copied. copied ≡ self.now) }
    {
        Ok(Pid {
            node: self.node.copy()?,
            id: self.id,
            serial: self.serial,
            creation: self.creation,
        })
    }
}

//! The tracees at a desk.
ghost use Rattle.std.specs.Prelude.{◌≡◌, ◌+◌, ◌≤◌, IfOk, IfErr, OnOk, OnErr, codes};
ghost use Rattle.script_runner.specs.DeskLines.{IsNew, IsBadSpec, IsDue};

use intake::{Tracee, TraceeFault};
use std::alloc::Global;
use trace_message::{Flags, Stamp};
use trace_terms::{Atom, AtomFault, Pid};
use tracees::{PlainBook, Traced};

/// The tracees that are attached at a desk, and the moment of their events.
#[derive(Drop)]
pub struct Attached {
    pub moment: Stamp,
    pub traced: Vec<Traced<PlainBook>>,
}

impl Attached {
    ghost use Rattle.std.specs.Prelude.{[], nat_eq, pos, position};

    /// A list of no tracees, at the moment 0.
    pub fn new(alloc: Global) -> Attached
        ensures moment { result.moment ≡ record { mega = 0; sec = 0; micro = 0; mono = pos 0 } }
        ensures none { result.traced.items ≡ [] }
    {
        Attached {
            moment: Stamp {
                mega: 0,
                sec: 0,
                micro: 0,
                mono: 0,
            },
            traced: Vec::new(alloc),
        }
    }

    /// Sets the moment, but for its monotonic time.
    pub fn set_moment(&mut self, mega: u32, sec: u32, micro: u32)
        ensures moment { self.new.moment ≡ record {
          mega = mega;
          sec = sec;
          micro = micro;
          mono = self.old.moment.mono;
        } }
        ensures traced { self.new.traced ≡ self.old.traced }
    {
        self.moment = Stamp {
            mega,
            sec,
            micro,
            mono: self.moment.mono,
        };
    }

    /// Sets the moment's monotonic time.
    pub fn set_mono(&mut self, mono: i64)
        ensures moment { self.new.moment ≡ record self.old.moment { mono = mono } }
        ensures traced { self.new.traced ≡ self.old.traced }
    {
        self.moment.mono = mono;
    }

    /// The index of the tracee with this number; None where none is attached.
    pub fn place(&self, number: u32) -> Option<usize>
        ensures { result ≡ position (λ traced. nat_eq traced.tracee.number number)
            self.now.traced.items }
    {
        self.traced
            .iter()
            .position(|traced| traced.number() == number)
    }
}

/// The pid of the process that a tracee with this number stands for.
fn pid(alloc: Global, number: u32) -> Result<Pid, TraceeFault>
    requires { number ≤ 999 }
    ensures pid { IfOk result (λ pid. pid
        ≡ record { node = codes "nonode@nohost"; id = 80 + number; serial = 0; creation = 0 }) }
    ensures fault { OnErr result (result ≡ Err TraceeFault.NoMemory) }
{
    match Atom::new(alloc, "nonode@nohost") {
        Ok(node) => Ok(Pid {
            node,
            id: 80 + number,
            serial: 0,
            creation: 0,
        }),
        Err(AtomFault::NoMemory) => Err(TraceeFault::NoMemory),
        Err(AtomFault::TooLong) => unreachable!(),
    }
}

/// A new tracee, to which no event has come; Err where its capacity or limit is bad, or memory is refused.
pub fn new_tracee(
    alloc: Global,
    number: u32,
    capacity: u32,
    drop_limit: u32,
    flags: Flags,
) -> Result<Tracee, TraceeFault>
    requires { number ≤ 999 }
    ensures made { IfOk result (IsNew number capacity drop_limit flags) }
    ensures good_spec { OnOk result (IsBadSpec capacity drop_limit → ⊥) }
    ensures due { IfErr result (λ fault. IsDue fault capacity drop_limit) }
{
    let pid = pid(alloc, number)?;
    Tracee::new(alloc, number, pid, flags, capacity, drop_limit)
}

//! Refusals, as they are told: a number and a name.
ghost use Rattle.std.specs.Prelude.{◌≡◌, Some};
ghost use Rattle.std.specs.Fmt.{DisplaysOnOk};
ghost use Rattle.script_runner.specs.Answers as told;
ghost use Rattle.script_runner.specs.Texts as texts;

use intake::{EmitFault, TraceeFault};
use recovery::RecoverFault;
use std::alloc::AllocError;
use std::fmt;
use stores::CrashFault;
use trace_port::{CreateFault, PortFault, ResumeFault};
use trace_store::DeviceFault;
use tracees::HandFault;

/// Why a hand-over or a flush for a tracee was refused.
#[derive(Clone, Copy)]
pub enum HandRefusal {
    /// The port refused, after so many entries were moved.
    Port { fault: PortFault, moved: u64 },
    NoMemory,
    /// The tracee is attached at another desk.
    Stranger,
}

impl HandRefusal {
    /// The refusal that a fault is told as.
    pub fn of(fault: &HandFault) -> HandRefusal
        ensures { result ≡ told.hand_refusal fault.now }
    {
        match fault {
            HandFault::Port { fault, receipt } => HandRefusal::Port {
                fault: *fault,
                moved: receipt.entries.len() as u64,
            },
            HandFault::NoMemory => HandRefusal::NoMemory,
            HandFault::Stranger => HandRefusal::Stranger,
        }
    }
}

/// What was refused.
#[derive(Clone, Copy)]
pub enum Refusal {
    /// A call of the store itself.
    Device,
    /// A call whose only refusal is lack of memory.
    NoMemory,
    Crash(CrashFault),
    Recover(RecoverFault),
    Create(CreateFault),
    Resume(ResumeFault),
    Port(PortFault),
    /// A new tracee.
    Tracee(TraceeFault),
    /// An event.
    Emit(EmitFault),
    Hand(HandRefusal),
}

impl Refusal {
    ghost use Rattle.std.specs.Prelude.{◌↔◌, IsTrue};
    ghost use Rattle.script_runner.specs.Faults.{IsOfDevice};

    /// Whether a device call failed.
    pub fn is_of_device(&self) -> bool
        ensures { IsTrue result ↔ IsOfDevice self.now }
    {
        matches!(
            self,
            Refusal::Device
                | Refusal::Recover(RecoverFault::Device)
                | Refusal::Create(CreateFault::Device)
                | Refusal::Resume(ResumeFault::Recover(RecoverFault::Device))
                | Refusal::Port(PortFault::Device)
                | Refusal::Hand(HandRefusal::Port {
                    fault: PortFault::Device,
                    moved: _
                })
        )
    }
}

impl From<DeviceFault> for Refusal {
    ghost use Rattle.script_runner.specs.declared.refusal.Refusal.TheVariants.{Device};

    ghost from_gives = { λ _ refusal. refusal ≡ Device };

    fn from(_fault: DeviceFault) -> Refusal {
        Refusal::Device
    }
}

impl From<AllocError> for Refusal {
    ghost use Rattle.script_runner.specs.declared.refusal.Refusal.TheVariants.{NoMemory};

    ghost from_gives = { λ _ refusal. refusal ≡ NoMemory };

    fn from(_fault: AllocError) -> Refusal {
        Refusal::NoMemory
    }
}

impl fmt::Display for Refusal {
    ghost use Rattle.std.specs.Prelude.{Some};
    ghost use Rattle.script_runner.specs.Texts.{refusal_text};

    ghost output = { λ refusal. Some (refusal_text refusal) };

    fn fmt<W: fmt::Write>(&self, f: &mut fmt::Formatter<W>) -> fmt::Result {
        match *self {
            Refusal::Device => f.write_str("1 Device"),
            Refusal::NoMemory => f.write_str("1 NoMemory"),
            Refusal::Crash(CrashFault::NotImage) => f.write_str("1 NotImage"),
            Refusal::Crash(CrashFault::NoMemory) => f.write_str("2 NoMemory"),
            Refusal::Recover(fault) => tell_recover(f, fault),
            Refusal::Create(CreateFault::NotBlank) => f.write_str("1 NotBlank"),
            Refusal::Create(CreateFault::BadSpec) => f.write_str("2 BadSpec"),
            Refusal::Create(CreateFault::Device) => f.write_str("3 Device"),
            Refusal::Create(CreateFault::NoMemory) => f.write_str("4 NoMemory"),
            Refusal::Resume(ResumeFault::Sealed) => f.write_str("1 Sealed"),
            Refusal::Resume(ResumeFault::Blank) => f.write_str("2 Blank"),
            Refusal::Resume(ResumeFault::WrongKind) => f.write_str("3 WrongKind"),
            Refusal::Resume(ResumeFault::BadSpec) => f.write_str("4 BadSpec"),
            Refusal::Resume(ResumeFault::Recover(cause)) => {
                f.write_str("5 Recover ")?;
                tell_recover(f, cause)
            }
            Refusal::Port(fault) => f.write_str(port_text(fault)),
            Refusal::Tracee(TraceeFault::BadSpec) => f.write_str("1 BadSpec"),
            Refusal::Tracee(TraceeFault::NoMemory) => f.write_str("2 NoMemory"),
            Refusal::Emit(EmitFault::TooLong) => f.write_str("1 TooLong"),
            Refusal::Emit(EmitFault::TooDeep) => f.write_str("2 TooDeep"),
            Refusal::Emit(EmitFault::CountFull) => f.write_str("3 CountFull"),
            Refusal::Emit(EmitFault::NoMemory) => f.write_str("4 NoMemory"),
            Refusal::Hand(HandRefusal::Port { fault, moved }) => {
                let fault = port_text(fault);
                write!(f, "1 Port {fault} moved {moved}")
            }
            Refusal::Hand(HandRefusal::NoMemory) => f.write_str("2 NoMemory"),
            Refusal::Hand(HandRefusal::Stranger) => f.write_str("3 Stranger"),
        }
    }
}

fn tell_recover<W: fmt::Write>(f: &mut fmt::Formatter<W>, fault: RecoverFault) -> fmt::Result
    ensures { DisplaysOnOk W.write_str_gives f.old result (Some (texts.recover_text fault)) f.new }
{
    match fault {
        RecoverFault::Damaged { file, place } => write!(f, "1 Damaged file {file} at {place}"),
        RecoverFault::Mixed => f.write_str("2 Mixed"),
        RecoverFault::Sequence => f.write_str("3 Sequence"),
        RecoverFault::Device => f.write_str("4 Device"),
        RecoverFault::NoMemory => f.write_str("5 NoMemory"),
    }
}

fn port_text(fault: PortFault) -> &'static str
    ensures { result.now ≡ texts.port_text fault }
{
    match fault {
        PortFault::Device => "1 Device",
        PortFault::Broken => "2 Broken",
        PortFault::Sealed => "3 Sealed",
        PortFault::CountFull => "4 CountFull",
        PortFault::FileFull => "5 FileFull",
    }
}

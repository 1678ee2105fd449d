//! A trace that is listed while another process writes it.
ghost use Rattle.std.specs.Prelude.{◌≡◌, ◌<◌, ◌≤◌, Ok, IfOk, IfErr, true, false};
ghost use Rattle.std.specs.Io.KnownBytes.{Keeps};
ghost use Rattle.stores.specs.FolderStore.{honest_of};
ghost use Rattle.trace_listings.specs.{Looks.IsWhyGone, Sections.IsLookStopped};
ghost use Rattle.commands.specs.Following.{style_in, number_in, where_in, found_anew, LooksAnew, IsWhyLookFailed, IsSeen, GoesOn, refusals_after, HasFollowed, Follows};

use crate::commands::{style, written_out};
use crate::files::Files;
use crate::live::is_changing;
use crate::stage::Stage;
use command_line::Shown;
use faults::{Complaint, fault_of_reading};
use std::io::Write;
use std::sync::Wait;
use trace_listings::{Follower, Look, Watched};
use trace_reader::{Host, ReadFault};

/// How often a look that is refused is made again at once, at most.
const AGAIN: u32 = 31;

/// What came of a look.
#[derive(Clone, Copy)]
pub enum Seen {
    Waits,
    Sealed,
    /// The files changed under it, and nothing was told.
    Changed,
}

/// Looks once at the files as they are now.
fn look_once<W: Write>(
    files: &mut Files<'_>,
    follower: &mut Follower<'_>,
    refused: u32,
    out: &mut W,
) -> Result<Seen, ReadFault>
    ensures seen { IfOk result (IsSeen files.old.store files.new.store follower.old follower.new
        (W.contents out.old) (W.contents out.new)) }
    ensures anew { LooksAnew files.old.store files.new.store }
    ensures stopped { IfErr result (IsLookStopped (style_in follower.old) (where_in follower.old)
        (where_in follower.new) (W.contents out.old) (W.contents out.new)) }
    ensures gone { honest_of files.new.store
        → IfErr result (IsWhyGone (found_anew files.old.store) (number_in follower.old)) }
    ensures why_not { IfErr result (IsWhyLookFailed files.old.store files.new.store follower.old
        follower.new (W.contents out.old)) }
    ensures few { result ≡ Ok Seen.Changed → refused < 31 }
    ensures place { files.new.place ≡ files.old.place }
{
    let number = follower.number();
    match files.look(follower, out) {
        Ok(Look::Waits) => Ok(Seen::Waits),
        Ok(Look::Sealed) => Ok(Seen::Sealed),
        Err(fault) => {
            let is_same = follower.number() == number;
            if refused < AGAIN && is_same && is_changing(files, fault) {
                Ok(Seen::Changed)
            } else {
                Err(fault)
            }
        }
    }
}

fn is_sealed(seen: Seen) -> bool
    ensures end { result ≡ true → seen ≡ Seen.Sealed }
    ensures other { result ≡ false → GoesOn seen }
{
    matches!(seen, Seen::Sealed)
}

/// How many looks in a row were refused, after one more.
fn refusals(seen: Seen, before: u32) -> u32
    requires { seen ≡ Seen.Changed → before < 31 }
    ensures count { result ≡ refusals_after seen before }
    ensures few { result ≤ 31 }
{
    match seen {
        Seen::Changed => before + 1,
        Seen::Waits | Seen::Sealed => 0,
    }
}

/// Writes out what was told. A look that was refused told nothing: what comes after it may have been there before.
fn write_out<W: Write>(seen: Seen, out: &mut W) -> Result<(), ReadFault>
    ensures kept { Keeps (W.contents out.old) (W.contents out.new) }
    ensures err { IfErr result (λ fault. fault ≡ ReadFault.Write) }
{
    if let Seen::Changed = seen {
        return Ok(());
    }
    match out.flush() {
        Ok(()) => Ok(()),
        Err(_) => Err(ReadFault::Write),
    }
}

/// Looks at a trace again and again, until it is sealed.
fn follow<R: Wait, W: Write, H: Host>(
    rt: &R,
    files: &mut Files<'_>,
    follower: &mut Follower<'_>,
    watched: &mut Watched<'_, W, H>,
) -> Result<(), ReadFault>
    ensures followed { HasFollowed (record {
      files = files.old.store;
      follower = follower.old;
      holds = W.contents watched.old.writer.now;
    }) files.new.store (W.contents watched.new.writer.now) result }
    ensures place { files.new.place ≡ files.old.place }
{
    let mut refused = 0;
    let mut idle: u32 = 0;
    for _ in rt.forever() {
        let number = follower.number();
        let seen = look_once(files, follower, refused, &mut *watched.writer)?;
        if is_sealed(seen) {
            return follower.end(&mut *watched.writer);
        }
        refused = refusals(seen, refused);
        write_out(seen, &mut *watched.writer)?;
        idle = if follower.number() == number {
            idle.saturating_add(1)
        } else {
            0
        };
        watched.host.rest(idle);
    }
    unreachable!()
}

/// What was done when a fault came.
fn stage(files: &Files<'_>, follower: &Follower<'_>) -> Stage {
    if files.count() > 1 {
        Stage::Other
    } else {
        Stage::Listing {
            entries: follower.number(),
            shown: follower.shown(),
        }
    }
}

/// Lists a trace, and goes on with what another process adds to it, until it is sealed or what is told can't be written. It may
/// wait forever. Where it is to be pretty, every term of a node is shown.
pub fn serve_following<R: Wait, W: Write, H: Host>(
    rt: &R,
    files: &mut Files<'_>,
    is_pretty: bool,
    shown: &Shown,
    watched: &mut Watched<'_, W, H>,
) -> Result<(), Complaint>
    ensures { Follows is_pretty shown.now files.old files.new (W.contents watched.old.writer.now)
        (W.contents watched.new.writer.now) result }
{
    let mut follower = Follower::new(files.alloc(), style(is_pretty, shown));
    let done = follow(rt, files, &mut follower, watched);
    let flushed = watched.flush();
    let stage = stage(files, &follower);
    drop(follower);
    match done {
        Ok(()) => written_out(flushed),
        Err(fault) => Err(files.explained(fault_of_reading(fault), stage)),
    }
}

//! What a run does while a port is held in a desk.
ghost use Rattle.std.specs.Prelude.{◌≡◌, ◌≤◌, []};
ghost use Rattle.std.specs.Io.KnownBytes.{Appends};
ghost use Rattle.trace_port.specs.Effects.{Effect, no_effect};
ghost use Rattle.script_lines.specs.Lines.{IsWithinLimits, IsNumbered};
ghost use Rattle.script_runner.specs.Sides.{AtDesk, first_side, desk_seen, seat_seen, side_seen, KeepsDesk};
ghost use Rattle.script_runner.specs.{DeskLines.IsAskedFor, DeskLines.IsAskedAtDesk, Asked.IsAsked, LinesRun.RunsLines, Held.Ran, Held.IsAtDesk};

use crate::answer::Answer;
use crate::answers::Answers;
use crate::attached::{Attached, new_tracee};
use crate::fault::SimFault;
use crate::reading::next_line;
use crate::refusal::Refusal;
use crate::reply::{Leave, Reply};
use intake::TraceeFault;
use script_lines::{DeskLine, Line, Script, TraceeLine};
use std::alloc::Global;
use std::io::{BufRead, Write};
use trace_message::{Flags, Stamp};
use trace_port::TracePort;
use tracees::{Desk, PlainBook, Traced};

/// Runs lines at a desk until one gives its port up, and answers how; None where they end before. No tracee is attached at first,
/// and the moment is 0.
pub fn run_desk<P: TracePort, R: BufRead, W: Write>(
    alloc: Global,
    desk: &mut Desk<'_, P, PlainBook>,
    files: u32,
    script: &mut Script<'_, R>,
    answers: &mut Answers<'_, W>,
) -> Result<Option<Leave>, SimFault>
    ensures run { RunsLines R.Read W.Write script.old script.new answers.old answers.new
        (λ over was now. KeepsDesk P.TracePort desk.old desk.new
        (Ran P.told (AtDesk (first_side (desk_seen P.TracePort desk.old))) files over result
        (IsAtDesk (desk_seen P.TracePort desk.new)) [] (λ text. Appends was now text))) }
{
    let mut attached = Attached::new(alloc);
    for _line in 0..u64::MAX {
        let Some(line) = next_line(script, files)? else {
            return Ok(None);
        };
        match ask_owned(alloc, desk, &mut attached, line) {
            Reply::Told(answer) => answers.tell(answer)?,
            Reply::Left(leave) => return Ok(Some(leave)),
        }
    }
    Err(SimFault::Read)
}

/// Asks a desk, or its port, what the line says, and drops the line.
fn ask_owned<P: TracePort>(
    alloc: Global,
    desk: &mut Desk<'_, P, PlainBook>,
    attached: &mut Attached,
    line: Line,
) -> Reply
    requires { IsWithinLimits line }
    ensures step { KeepsDesk P.TracePort desk.old desk.new ((did : Effect)
        × IsAsked P.told (AtDesk (side_seen P.TracePort desk.old attached.old))
        (AtDesk (side_seen P.TracePort desk.new attached.new)) line result did) }
{
    let reply = ask(alloc, desk, attached, &line);
    drop(line);
    reply
}

/// Asks a desk, or its port, what the line says.
fn ask<P: TracePort>(
    alloc: Global,
    desk: &mut Desk<'_, P, PlainBook>,
    attached: &mut Attached,
    line: &Line,
) -> Reply
    requires { IsWithinLimits line.now }
    ensures step { KeepsDesk P.TracePort desk.old desk.new ((did : Effect)
        × IsAsked P.told (AtDesk (side_seen P.TracePort desk.old attached.old))
        (AtDesk (side_seen P.TracePort desk.new attached.new)) line.now result did) }
{
    match line {
        Line::Flush => Reply::Told(Answer::of_flush(desk.flush())),
        Line::Seal => Reply::Told(Answer::of_seal(desk.seal())),
        Line::Tick(now) => Reply::Told(Answer::of_tick(desk.tick(*now))),
        Line::Abandon => {
            desk.abandon();
            Reply::Left(Leave::Abandoned)
        }
        Line::Crash(unsynced) => {
            desk.abandon();
            Reply::Left(Leave::Crashed(*unsynced))
        }
        Line::Close => Reply::Left(Leave::Closed),
        Line::AtDesk(line) => Reply::Told(ask_desk(alloc, desk, attached, line)),
        _ => Reply::Told(Answer::OutOfOrder),
    }
}

/// Asks a desk what a line for it says.
fn ask_desk<P: TracePort>(
    alloc: Global,
    desk: &mut Desk<'_, P, PlainBook>,
    attached: &mut Attached,
    line: &DeskLine,
) -> Answer
    requires { IsNumbered line.now }
    ensures step { KeepsDesk P.TracePort desk.old desk.new ((did : Effect)
        × IsAskedAtDesk P.told (side_seen P.TracePort desk.old attached.old)
        (side_seen P.TracePort desk.new attached.new) line.now result did) }
{
    match line {
        DeskLine::Stamp { mega, sec, micro } => {
            attached.set_moment(*mega, *sec, *micro);
            Answer::Done
        }
        DeskLine::Mono(mono) => {
            attached.set_mono(*mono);
            Answer::Done
        }
        DeskLine::Tracee {
            number,
            capacity,
            drop_limit,
            flags,
        } => attach(
            alloc,
            desk,
            attached,
            *number,
            *capacity,
            *drop_limit,
            *flags,
        ),
        DeskLine::OfTracee(number, line) => {
            let Some(place) = attached.place(*number) else {
                return Answer::OutOfOrder;
            };
            let moment = attached.moment;
            ask_tracee(alloc, desk, &mut attached.traced[place], moment, line)
        }
    }
}

/// Attaches a new tracee; `OutOfOrder` where one with this number is attached.
fn attach<P: TracePort>(
    alloc: Global,
    desk: &mut Desk<'_, P, PlainBook>,
    attached: &mut Attached,
    number: u32,
    capacity: u32,
    drop_limit: u32,
    flags: Flags,
) -> Answer
    requires { number ≤ 999 }
    ensures port { desk.new.port.now ≡ desk.old.port.now }
    ensures step { KeepsDesk P.TracePort desk.old desk.new
        (IsAskedAtDesk P.told (side_seen P.TracePort desk.old attached.old)
        (side_seen P.TracePort desk.new attached.new)
        (DeskLine.Tracee number capacity drop_limit flags) result no_effect) }
{
    if attached.place(number).is_some() {
        return Answer::OutOfOrder;
    }
    let tracee = match new_tracee(alloc, number, capacity, drop_limit, flags) {
        Ok(tracee) => tracee,
        Err(fault) => return Answer::Refused(Refusal::Tracee(fault)),
    };
    if desk.attached() == u32::MAX {
        return Answer::Refused(Refusal::Tracee(TraceeFault::NoMemory));
    }
    if attached.traced.reserve(1).is_err() {
        return Answer::Refused(Refusal::Tracee(TraceeFault::NoMemory));
    }
    attached.traced.push_reserved(desk.attach(tracee));
    Answer::Done
}

/// Asks a tracee what a line for it says.
fn ask_tracee<P: TracePort>(
    alloc: Global,
    desk: &mut Desk<'_, P, PlainBook>,
    traced: &mut Traced<PlainBook>,
    moment: Stamp,
    line: &TraceeLine,
) -> Answer
    ensures step { KeepsDesk P.TracePort desk.old desk.new ((did : Effect)
        × IsAskedFor P.told (desk_seen P.TracePort desk.old) moment (seat_seen traced.old)
        (desk_seen P.TracePort desk.new) (seat_seen traced.new) line.now result did) }
{
    match line {
        TraceeLine::Emit(event) => Answer::of_emit(traced.emit(alloc, event, moment)),
        TraceeLine::Hand(limit) => Answer::of_hand_over(&desk.hand_over(alloc, traced, *limit)),
        TraceeLine::FlushFor => Answer::of_flush_for(&desk.flush_for(alloc, traced)),
        TraceeLine::Counts => Answer::Counts(traced.counts()),
    }
}

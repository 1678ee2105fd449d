//! What a command says of its options on standard error.

use command_line::{Asked, Wanted};
use script_runner::Origin;
use segment::StoreSpec;
use trace_lookup::{Found, Kind, Shown};

/// Tells that an option has no effect, and where.
fn tell_no_effect(rt: &impl Eprint, option: &str, place: &str) {
    let _ = eprintln!(rt; "dbgrec: {option} has no effect {place}");
}

/// Names the options that mean nothing to a trace of one file.
pub fn tell_idle_on_file(rt: &impl Eprint, asked: &Asked<'_>) {
    if asked.count.is_some() {
        tell_no_effect(rt, "--count", "on one file");
    }
    if asked.suffix.is_some() {
        tell_no_effect(rt, "--suffix", "on one file");
    }
}

/// Names the options that have no effect on a trace of this kind.
pub fn tell_idle(rt: &impl Eprint, wanted: &Wanted<'_>, kind: Kind) {
    match kind {
        Kind::File => {
            tell_idle_on_file(rt, &wanted.asked);
            if wanted.size.is_some() {
                tell_no_effect(rt, "--size", "on one file");
            }
            if wanted.time.is_some() {
                tell_no_effect(rt, "--time", "on one file");
            }
        }
        Kind::Wrap { count: _ } => {
            if wanted.size.is_some() && wanted.time.is_some() {
                tell_no_effect(rt, "--size", "beside --time");
            }
        }
    }
}

/// Says which options of the command line a wrap that is gone on with doesn't take.
pub fn tell_own(rt: &impl Eprint, wanted: &Wanted<'_>, found: &Found, origin: Origin) {
    if let (Origin::Resumed, Found::Wrap(Some(own))) = (origin, found)
        && let Some(count) = own.spec.count()
    {
        tell_own_count(rt, wanted, count);
        tell_own_turn(rt, wanted, own.spec);
    }
}

fn tell_own_count(rt: &impl Eprint, wanted: &Wanted<'_>, count: u16) {
    if let Some(given) = wanted.asked.count
        && given != count
    {
        let (own, given) = (u32::from(count), u32::from(given));
        tell_goes_on(rt, wanted.asked.base, ("--count", own), ("", given));
    }
}

/// What is said of the option that ends a run.
fn tell_own_turn(rt: &impl Eprint, wanted: &Wanted<'_>, own: StoreSpec) {
    let (turn, option, given, other, instead) = match own {
        StoreSpec::File => return,
        StoreSpec::Wrap { size, .. } => (size, "--size", wanted.size, "--time ", wanted.time),
        StoreSpec::Timed { millis, .. } => (millis, "--time", wanted.time, "--size ", wanted.size),
    };
    let instead = match (given, instead) {
        (Some(given), _) if given != turn => ("", given),
        (None, Some(instead)) => (other, instead),
        _ => return,
    };
    tell_goes_on(rt, wanted.asked.base, (option, turn), instead);
}

/// Tells that a wrap goes on with its own value of an option, and not with another one.
fn tell_goes_on(rt: &impl Eprint, name: &str, own: (&str, u32), other: (&str, u32)) {
    let (name, (option, own), (instead, given)) = (Shown(name), own, other);
    let _ = eprintln!(rt;
        "dbgrec: {name} goes on with its own {option} {own}, not {instead}{given}"
    );
}

//! Times as rows tell them, without a row.

use crate::clock_text::{Clock, Day};
use crate::zone::{Zone, local_zone};
use command_line::{Layout, TimeColumn};
use std::alloc::{AllocError, Global};
use trace_times::Time;

/// Two times, the earlier first, as rows tell them that are laid out so, or as they mostly are.
pub fn times_told(
    rt: &HostRuntime,
    times: (Time, Time),
    layout: Option<&Layout>,
) -> Result<(String, String), AllocError> {
    let zone = if layout.is_some_and(|layout| layout.is_utc) {
        Zone::Utc
    } else {
        local_zone(rt)?
    };
    let column = match layout {
        Some(layout) => layout.times,
        None => TimeColumn::Clock,
    };
    let mut clock = Clock::new(zone.now(rt).map(Day::of));
    let first = told(rt.alloc(), &mut clock, column, times.0, &zone)?;
    let last = told(rt.alloc(), &mut clock, column, times.1, &zone)?;
    Ok((first, last))
}

/// A time as a row tells it.
fn told(
    alloc: Global,
    clock: &mut Clock,
    column: TimeColumn,
    time: Time,
    zone: &Zone,
) -> Result<String, AllocError> {
    let mut text = String::new(alloc);
    clock.put(&mut text, column, time, zone)?;
    String::from_str(alloc, text.as_str().trim())
}

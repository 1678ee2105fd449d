//! The time zone in which the times of wall clocks are told.

use jiff_core::{Error, Timestamp};
use jiff_tz::{Tzif, posix};
use std::alloc::AllocError;
use std::env::{self, VarError};
use std::fs::{self, File};
use std::io::{self, ErrorKind, Read};
use std::time::SystemTime;
use trace_times::Time;

/// The folder of the zones that have names.
const ZONES: &str = "/usr/share/zoneinfo";

/// The zone of the system.
const LOCAL: &str = "/etc/localtime";

/// The most bytes of a file that are read.
const LONGEST: u64 = 1 << 20;

/// The nanoseconds of a second.
const SECOND: i64 = 1_000_000_000;

/// A time zone.
#[derive(Drop)]
pub enum Zone {
    Utc,
    /// One that a rule tells.
    Ruled(posix::TimeZone),
    /// One that a file tells.
    Filed(Tzif),
}

impl Zone {
    /// The time that its clocks tell at a time of UTC, both in nanoseconds since the beginning of 1970.
    pub fn told_at(&self, nanos: i64) -> i64 {
        let Ok(instant) = Timestamp::from_nanosecond(i128::from(nanos)) else {
            return nanos;
        };
        let offset = match self {
            Zone::Utc => return nanos,
            Zone::Ruled(rule) => rule.to_offset(instant),
            Zone::Filed(table) => table.to_offset(instant),
        };
        let seconds = i64::from(offset.seconds);
        nanos.saturating_add(seconds.saturating_mul(SECOND))
    }

    /// A time, as its clocks tell it. A monotonic one stays.
    pub fn told(&self, time: Time) -> Time {
        match time {
            Time::Wall(nanos) => Time::Wall(self.told_at(nanos)),
            Time::Monotonic(_) => time,
        }
    }

    /// What its clocks tell now, where the system's clock can be read.
    pub fn now(&self, rt: &HostRuntime) -> Option<i64> {
        let now = SystemTime::now(rt).ok()?;
        let since = now.duration_since(SystemTime::UNIX_EPOCH).ok()?;
        Some(self.told_at(i64::try_from(since.as_nanos()).ok()?))
    }
}

/// The text of a variable of the environment; None where it isn't set, or is no text.
fn variable(rt: &HostRuntime, name: &str) -> Result<Option<String>, AllocError> {
    match env::var(rt, name) {
        Ok(text) => Ok(Some(text)),
        Err(VarError::OutOfMemory) => Err(AllocError),
        Err(_) => Ok(None),
    }
}

/// The first bytes of a file.
fn bytes_of(rt: &HostRuntime, path: &str) -> io::Result<Vec<u8>> {
    if !fs::metadata(rt, path)?.is_file() {
        return Err(io::Error::from(ErrorKind::InvalidInput));
    }
    let mut bytes = Vec::new(rt.alloc());
    let mut file = File::open(rt, path)?.take(LONGEST);
    file.read_to_end(&mut bytes)?;
    Ok(bytes)
}

/// The zone that a file tells, if it tells one.
fn zone_at(rt: &HostRuntime, path: &str) -> Result<Option<Zone>, AllocError> {
    let bytes = match bytes_of(rt, path) {
        Ok(bytes) => bytes,
        Err(fault) if fault.kind() == ErrorKind::OutOfMemory => return Err(AllocError),
        Err(_) => return Ok(None),
    };
    match Tzif::parse(rt.alloc(), None, &bytes) {
        Ok(table) => Ok(Some(Zone::Filed(table))),
        Err(Error::OutOfMemory) => Err(AllocError),
        Err(_) => Ok(None),
    }
}

/// The zone that a value of TZ tells, if it tells one: a rule, the path of a file, or a name.
fn zone_named(rt: &HostRuntime, name: &str) -> Result<Option<Zone>, AllocError> {
    if let Ok(rule) = posix::TimeZone::parse(name.as_bytes()) {
        return Ok(Some(Zone::Ruled(rule)));
    }
    let path = name.strip_prefix(':').unwrap_or(name);
    if path.starts_with('/') {
        return zone_at(rt, path);
    }
    let path = format!(in rt.alloc(); "{ZONES}/{path}")?;
    zone_at(rt, path.as_str())
}

/// The zone of TZ, or of the system where that isn't set. UTC where it can't be told.
pub fn local_zone(rt: &HostRuntime) -> Result<Zone, AllocError> {
    let found = match variable(rt, "TZ")? {
        Some(name) if name.is_empty() => None,
        Some(name) => zone_named(rt, name.as_str())?,
        None => zone_at(rt, LOCAL)?,
    };
    Ok(found.unwrap_or(Zone::Utc))
}

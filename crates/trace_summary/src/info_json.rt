//! A trace in numbers, as one JSON object.

use crate::info::{Info, PART, Part};
use crate::stamp::Stamp;
use crate::summary::End;
use segment::StoreSpec;
use serde_json::{Map, Value, json, put};
use std::alloc::{AllocError, Global};
use trace_text::{KIND_COUNT, kind_at};

/// The members of an object.
type Object = Map<String, Value>;

/// A number, or null.
fn number(number: Option<u64>) -> Value {
    match number {
        Some(number) => Value::from(number),
        None => Value::Null,
    }
}

/// What a trace is called.
fn kind_of(spec: StoreSpec) -> &'static str {
    match spec {
        StoreSpec::File => "file",
        StoreSpec::Wrap { size: _, count: _ } => "wrap by size",
        StoreSpec::Timed {
            millis: _,
            count: _,
        } => "wrap by time",
    }
}

/// Puts how many runs a wrap keeps, and what ends them.
fn put_sizes(spec: StoreSpec, alloc: Global, object: &mut Object) -> Result<(), AllocError> {
    match spec {
        StoreSpec::File => Ok(()),
        StoreSpec::Wrap { size, count } => {
            put(object, alloc, "count", Value::from(count))?;
            put(object, alloc, "size", Value::from(size))
        }
        StoreSpec::Timed { millis, count } => {
            put(object, alloc, "count", Value::from(count))?;
            put(object, alloc, "time", Value::from(millis))
        }
    }
}

/// A text, or null.
fn text(alloc: Global, text: Option<&str>) -> Result<Value, AllocError> {
    match text {
        Some(text) => Value::try_from_str(alloc, text),
        None => Ok(Value::Null),
    }
}

/// A time stamp as a person reads it, or null.
fn time(alloc: Global, stamp: Option<&str>) -> Result<Value, AllocError> {
    match stamp {
        Some(stamp) => {
            let stamp = Stamp(stamp);
            let text = format!(in alloc; "{stamp}")?;
            Value::try_from_str(alloc, text.as_str())
        }
        None => Ok(Value::Null),
    }
}

impl Info {
    /// The text of the object.
    pub fn to_json(&self, alloc: Global) -> Result<String, AllocError> {
        let mut object = Map::new(alloc);
        self.put_extent(alloc, &mut object)?;
        self.put_counts(alloc, &mut object)?;
        self.put_parts(alloc, &mut object)?;
        self.put_times(alloc, &mut object)?;
        Value::Object(object).to_string(alloc)
    }

    /// Puts what it is, and which entries it has.
    fn put_extent(&self, alloc: Global, object: &mut Object) -> Result<(), AllocError> {
        put(object, alloc, "trace", self.trace_as_json(alloc)?)?;
        let state = Value::try_from_str(alloc, self.state())?;
        put(object, alloc, "state", state)?;
        put(
            object,
            alloc,
            "entries",
            number(Some(self.totals().entries)),
        )?;
        put(object, alloc, "first", number(Some(self.before().0)))?;
        put(object, alloc, "last", number(self.last()))
    }

    /// Puts what was lost, and the bytes.
    fn put_counts(&self, alloc: Global, object: &mut Object) -> Result<(), AllocError> {
        let totals = self.totals();
        let ranges = Value::from(self.ranges_as_json(alloc)?);
        put(object, alloc, "ranges", ranges)?;
        put(object, alloc, "lost_before", number(Some(self.before().1)))?;
        put(object, alloc, "drop_records", number(Some(totals.drops)))?;
        put(object, alloc, "lost", number(totals.lost))?;
        put(object, alloc, "bytes", number(Some(totals.bytes)))
    }

    /// Puts its files, and the kinds of its messages.
    fn put_parts(&self, alloc: Global, object: &mut Object) -> Result<(), AllocError> {
        let files = Value::from(self.files_as_json(alloc)?);
        put(object, alloc, "files", files)?;
        let kinds = Value::from(self.kinds_as_json(alloc)?);
        put(object, alloc, "kinds", kinds)
    }

    /// Puts when it begins and ends.
    fn put_times(&self, alloc: Global, object: &mut Object) -> Result<(), AllocError> {
        let (first, last) = (self.first_stamp(), self.last_stamp());
        put(object, alloc, "first_time_stamp", text(alloc, first)?)?;
        put(object, alloc, "last_time_stamp", text(alloc, last)?)?;
        put(object, alloc, "first_time", time(alloc, first)?)?;
        put(object, alloc, "last_time", time(alloc, last)?)?;
        let length = match self.length() {
            Some(length) => Value::from(length),
            None => Value::Null,
        };
        put(object, alloc, "length", length)
    }

    /// What it is: kind, version, and of a wrap what ends its runs and how many it keeps.
    fn trace_as_json(&self, alloc: Global) -> Result<Value, AllocError> {
        let Some(newest) = self.parts.last() else {
            return Ok(Value::Null);
        };
        let (spec, version) = (newest.summary.header.spec, newest.summary.header.version);
        let mut object = Map::new(alloc);
        let kind = Value::try_from_str(alloc, kind_of(spec))?;
        put(&mut object, alloc, "kind", kind)?;
        put(&mut object, alloc, "version", Value::from(version))?;
        put_sizes(spec, alloc, &mut object)?;
        Ok(Value::Object(object))
    }

    /// The numbers of its entries: the first and the last of each range.
    fn ranges_as_json(&self, alloc: Global) -> Result<Vec<Value>, AllocError> {
        let mut ranges = Vec::new(alloc);
        let mut place = 0;
        for _ in 0..self.parts.len() {
            let Some((range, behind)) = self.range_from(place) else {
                break;
            };
            ranges.push(json!(in alloc; [range.first, range.last])?)?;
            place = behind;
        }
        Ok(ranges)
    }

    /// Its open files, the oldest first.
    fn files_as_json(&self, alloc: Global) -> Result<Vec<Value>, AllocError> {
        let mut files = Vec::new(alloc);
        for part in &self.parts {
            files.push(part.as_json(alloc, self.is_kept(part))?)?;
        }
        for name in &self.headless {
            files.push(json!(in alloc; {"name": name, "damaged_at": 0})?)?;
        }
        Ok(files)
    }

    /// How many messages there are of each kind of which there are any.
    fn kinds_as_json(&self, alloc: Global) -> Result<Map<String, Value>, AllocError> {
        let mut kinds = Map::new(alloc);
        for place in 0..KIND_COUNT {
            let count = self.count(place);
            if count > 0 {
                put(&mut kinds, alloc, kind_at(place), Value::from(count))?;
            }
        }
        let parts = self.lone_parts();
        if parts > 0 {
            put(&mut kinds, alloc, PART, Value::from(parts))?;
        }
        Ok(kinds)
    }
}

impl Part {
    fn as_json(&self, alloc: Global, is_kept: bool) -> Result<Value, AllocError> {
        let summary = &self.summary;
        let damaged_at = match summary.end {
            End::Damaged { place } => Some(place),
            _ => None,
        };
        let mut object = Map::new(alloc);
        let name = Value::try_from_str(alloc, self.name.as_str())?;
        put(&mut object, alloc, "name", name)?;
        let (generation, tally) = (summary.header.generation, &summary.counted.tally);
        put(&mut object, alloc, "generation", Value::from(generation))?;
        put(&mut object, alloc, "entries", Value::from(tally.entries))?;
        put(&mut object, alloc, "bytes", Value::from(tally.bytes))?;
        put(&mut object, alloc, "kept", Value::from(is_kept))?;
        put(&mut object, alloc, "damaged_at", number(damaged_at))?;
        Ok(Value::Object(object))
    }
}

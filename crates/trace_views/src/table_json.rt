//! The table of what a trace has most of, as one JSON object.
ghost use Rattle.std.specs.Prelude.{◌≡◌, ◌≤◌, ◌+◌, ◌∷◌, [], ℕ, List, OnOk, Some, IfOk, map, take, codes, string_bytes};
ghost use Rattle.std.specs.List.{AllZip};
ghost use Rattle.serde_json.specs.{Data.Data, Data.array, Data.depth, Data.items_depth, Find.get, Read.read, View.items_view, View.members_view, View.view};
ghost use Rattle.trace_views.specs.Lines.{line_pairs};
ghost use Rattle.trace_views.specs.Rows.{counts_of_function, counts_of_process};
ghost use Rattle.trace_views.specs.TableObjects.{AreWithin, HasMembers, Member, TellsRows, course_members, table_members, function_members, process_members, kind_members, members_in, number_or_null, time_members, told_number, with_members};

use crate::calls::Unpaired;
use crate::cells::{open_of, waiting_of};
use crate::lines::Line;
use crate::row::{FunctionRow, ProcessRow};
use crate::table::{Rows, Table};
use serde_json::{Map, Number, Value, json, put};
use std::alloc::{AllocError, Global};

/// The members of an object.
type Object = Map<String, Value>;

/// A number, or null.
fn or_null<N: Into<Number>>(number: Option<N>) -> Value
    ensures { depth (view result) ≡ 0 }
{
    match number {
        Some(number) => Value::Number(number.into()),
        None => Value::Null,
    }
}

/// A count, or null.
fn count_or_null(count: Option<u64>) -> Value
    ensures told { view result ≡ number_or_null count }
    ensures flat { depth (view result) ≡ 0 }
{
    match count {
        Some(count) => Value::from(count),
        None => Value::Null,
    }
}

/// A row that is told as an object.
trait Told: Copy {
    /// What it tells, with its text.
    ghost members: { List ℕ → Self → List Member };

    /// The object, of a function with the open calls of each, by its number.
    fn to_object(&self, alloc: Global, text: &[u8], open: &[u64]) -> Result<Value, AllocError>
        ensures told { IfOk result
            (λ object. HasMembers (members text.now self.now) (view object)) }
        ensures flat { IfOk result (λ object. depth (view object) ≤ 1) };
}

impl FunctionRow {
    /// Puts its function, and what is counted of it.
    fn put_counts(&self, alloc: Global, text: &[u8], object: &mut Object) -> Result<(), AllocError>
        ensures { OnOk result (members_view object.new.entries
            ≡ with_members (function_members text.now (counts_of_function self.now))
            (members_view object.old.entries)) }
    {
        let function = String::from_utf8_lossy(alloc, text)?;
        put(object, alloc, "function", Value::String(function))?;
        put(object, alloc, "calls", Value::from(self.calls))?;
        put(object, alloc, "returns", Value::from(self.returns))?;
        put(object, alloc, "exceptions", Value::from(self.exceptions))
    }

    /// Puts how long its calls took, and how many are open.
    fn put_times(&self, alloc: Global, open: &[u64], object: &mut Object) -> Result<(), AllocError>
        ensures { OnOk result ((total own mean longest still : Data)
            × AreWithin 0 (total ∷ own ∷ mean ∷ longest ∷ still ∷ [])
            × (members_view object.new.entries
            ≡ with_members (time_members total own mean longest still)
            (members_view object.old.entries))) }
    {
        let mean = self.times.mean();
        put(
            object,
            alloc,
            "total",
            or_null(mean.map(|_| self.times.total)),
        )?;
        put(object, alloc, "own", or_null(self.times.own))?;
        put(object, alloc, "mean", or_null(mean))?;
        put(
            object,
            alloc,
            "longest",
            or_null(mean.map(|_| self.times.longest)),
        )?;
        put(object, alloc, "open", Value::from(open_of(open, *self)))
    }
}

impl Told for FunctionRow {
    ghost members = { λ text row. function_members text (counts_of_function row) };

    fn to_object(&self, alloc: Global, text: &[u8], open: &[u64]) -> Result<Value, AllocError> {
        let mut object = Map::new(alloc);
        self.put_counts(alloc, text, &mut object)?;
        self.put_times(alloc, open, &mut object)?;
        Ok(Value::Object(object))
    }
}

impl Told for ProcessRow {
    ghost members = { λ text row. process_members text (counts_of_process row) };

    fn to_object(&self, alloc: Global, text: &[u8], _open: &[u64]) -> Result<Value, AllocError> {
        json!(in alloc; {
            "process": String::from_utf8_lossy(alloc, text)?,
            "calls": self.calls,
            "sent": self.sent,
            "received": self.received,
            "waiting": count_or_null(waiting_of(text, *self)),
        })
    }
}

impl Told for u64 {
    ghost members = { kind_members };

    fn to_object(&self, alloc: Global, text: &[u8], _open: &[u64]) -> Result<Value, AllocError> {
        json!(in alloc; {"kind": String::from_utf8_lossy(alloc, text)?, "count": *self})
    }
}

/// The first rows.
fn objects_of<R: Told>(
    alloc: Global,
    lines: &[Line<'_, R>],
    limit: usize,
    open: &[u64],
) -> Result<Vec<Value>, AllocError>
    ensures told { IfOk result (λ objects. AllZip HasMembers
        (take limit (map (λ line. R.members line.0 line.1) (line_pairs lines.now)))
        (map view objects.items)) }
    ensures flat { IfOk result (λ objects. items_depth (items_view objects.items) ≤ 1) }
{
    let mut objects = Vec::new(alloc);
    for line in lines.iter().take(limit) {
        objects.push(line.row.to_object(alloc, line.text, open)?)?;
    }
    Ok(objects)
}

impl Table<'_> {
    /// The text of the object. Its times are in nanoseconds.
    pub fn to_json(&self, alloc: Global) -> Result<String, AllocError>
        ensures { IfOk result (λ text. (object : Data)
            × (read (string_bytes text) ≡ Some object) × TellsRows self.now object) }
    {
        let rows = self.objects(alloc)?;
        self.to_object(alloc, rows)?.to_string(alloc)
    }

    /// The rows that are shown.
    fn objects(&self, alloc: Global) -> Result<Vec<Value>, AllocError>
        ensures told { IfOk result (λ objects. AllZip HasMembers
            (take self.now.limit (members_in self.now.rows)) (map view objects.items)) }
        ensures flat { IfOk result (λ objects. items_depth (items_view objects.items) ≤ 1) }
    {
        match &self.rows {
            Rows::Functions(lines) => objects_of(alloc, lines, self.limit, &self.open),
            Rows::Processes(lines) => objects_of(alloc, lines, self.limit, &self.open),
            Rows::Kinds(lines) => objects_of(alloc, lines, self.limit, &self.open),
        }
    }

    /// How many messages each share of the trace has, or how many were lost there.
    #[tactic(auto, using(crate::proofs::TableLemmas::flat_push))]
    fn shares(&self, alloc: Global, are_lost: bool) -> Result<Value, AllocError>
        ensures { IfOk result (λ shares. depth (view shares) ≤ 1) }
    {
        let mut shares = Vec::new(alloc);
        for bar in self.bars.shares() {
            let count = if are_lost { bar.lost } else { bar.messages };
            shares.push(Value::from(count))?;
        }
        Ok(Value::Array(shares))
    }

    /// The object with these rows.
    fn to_object(&self, alloc: Global, rows: Vec<Value>) -> Result<Value, AllocError>
        ensures told { IfOk result (λ object. HasMembers (table_members self.now.by
            self.now.messages self.now.unread self.now.lost) (view object)) }
        ensures rows { IfOk result (λ object.
            get (codes "rows") (view object) ≡ Some (array (items_view rows.items))) }
        ensures flat { IfOk result (λ object.
            depth (view object) ≤ items_depth (items_view rows.items) + 2) }
    {
        let mut object = Map::new(alloc);
        self.put_rows(alloc, rows, &mut object)?;
        self.put_unpaired(alloc, &mut object)?;
        self.put_course(alloc, &mut object)?;
        Ok(Value::Object(object))
    }

    /// Puts its rows, and how many messages they are of.
    fn put_rows(
        &self,
        alloc: Global,
        rows: Vec<Value>,
        object: &mut Object,
    ) -> Result<(), AllocError>
        ensures { OnOk result (members_view object.new.entries
            ≡ with_members ((codes "rows", array (items_view rows.items)) ∷ table_members
            self.now.by self.now.messages self.now.unread self.now.lost)
            (members_view object.old.entries)) }
    {
        put(object, alloc, "rows", Value::Array(rows))?;
        put(
            object,
            alloc,
            "by",
            Value::try_from_str(alloc, self.word())?,
        )?;
        put(object, alloc, "messages", Value::from(self.messages))?;
        put(object, alloc, "unread", Value::from(self.unread))?;
        put(object, alloc, "lost", Value::from(self.lost))
    }

    /// Puts how many calls and ends don't belong together.
    fn put_unpaired(&self, alloc: Global, object: &mut Object) -> Result<(), AllocError>
        ensures { OnOk result (members_view object.new.entries
            ≡ with_members ((codes "calls_without_end", told_number self.now.unpaired.calls)
            ∷ (codes "ends_without_call", told_number self.now.unpaired.ends) ∷ [])
            (members_view object.old.entries)) }
    {
        let Unpaired { calls, ends } = self.unpaired;
        put(object, alloc, "calls_without_end", Value::from(calls))?;
        put(object, alloc, "ends_without_call", Value::from(ends))
    }

    /// Puts where its messages lie.
    fn put_course(&self, alloc: Global, object: &mut Object) -> Result<(), AllocError>
        ensures { OnOk result ((from to share bars lost_bars : Data)
            × AreWithin 0 (from ∷ to ∷ share ∷ []) × AreWithin 1 (bars ∷ lost_bars ∷ [])
            × (members_view object.new.entries
            ≡ with_members (course_members from to share bars lost_bars)
            (members_view object.old.entries))) }
    {
        let (from, to) = (
            self.span.map(|span| span.from),
            self.span.map(|span| span.to),
        );
        put(object, alloc, "from", or_null(from))?;
        put(object, alloc, "to", or_null(to))?;
        put(object, alloc, "share", Value::from(self.bars.length()))?;
        put(object, alloc, "bars", self.shares(alloc, false)?)?;
        put(object, alloc, "lost_bars", self.shares(alloc, true)?)
    }
}

//! The table of what a trace has most of, as text for a person.
ghost use Rattle.std.specs.Prelude.{◌≡◌, List, IfOk};
ghost use Rattle.std.specs.HashMap.{IsUnique};
ghost use Rattle.std.specs.Str.{bytes_eq};
ghost use Rattle.trace_views.specs.{Counting.Telling, TableObjects.AreTold, TableObjects.word_of, Tables.HasEachRow, Tables.IsTableOf, Tallies.IsCounted};

use crate::bars::{Bar, Bars};
use crate::calls::Unpaired;
use crate::cells::{Figure, Shown};
use crate::lines::{Line, lines_of, lines_of_kinds};
use crate::row::{FunctionRow, ProcessRow};
use crate::tallies::{Span, Tallies};
use command_line::{Grouping, Order, Ranking};
use std::alloc::{AllocError, Global};
use std::collections::HashMap;
use std::fmt;

/// The numbers of functions of a trace that has times.
static TIMED_FUNCTIONS: [Figure; 7] = [
    Figure::Calls,
    Figure::Exceptions,
    Figure::Total,
    Figure::Own,
    Figure::Mean,
    Figure::Longest,
    Figure::Open,
];

/// Those of one that has none.
static FUNCTIONS: [Figure; 3] = [Figure::Calls, Figure::Exceptions, Figure::Open];

static PROCESSES: [Figure; 4] = [
    Figure::Calls,
    Figure::Sent,
    Figure::Received,
    Figure::Waiting,
];

static KINDS: [Figure; 1] = [Figure::Count];

/// Below the functions of a trace that has no times.
const NO_TIMES: &str =
    "no times: trace with the flag timestamp or monotonic_timestamp to have them\n";

/// Bars, by how high they are.
static BARS: [char; 9] = [' ', '▁', '▂', '▃', '▄', '▅', '▆', '▇', '█'];

/// The rows that are asked for, in order.
#[derive(Drop)]
pub enum Rows<'t> {
    Functions(Vec<Line<'t, FunctionRow>>),
    Processes(Vec<Line<'t, ProcessRow>>),
    Kinds(Vec<Line<'t, u64>>),
}

/// A column, with the number of characters that the rows which are shown need.
#[derive(Clone, Copy)]
struct Column {
    figure: Figure,
    width: usize,
}

/// A table, of which the first rows are shown.
#[derive(Drop)]
pub struct Table<'t> {
    pub by: Grouping,
    pub rows: Rows<'t>,
    columns: Vec<Column>,
    /// How many calls of a function are open, by the function's number.
    pub open: Vec<u64>,
    pub unpaired: Unpaired,
    /// How many rows are shown at most.
    pub limit: usize,
    pub messages: u64,
    pub unread: u64,
    pub lost: u64,
    pub span: Option<Span>,
    pub bars: Bars,
}

impl Tallies {
    /// The table that is asked for.
    pub fn table(&self, alloc: Global, ranking: Ranking) -> Result<Table<'_>, AllocError>
        ensures table { IfOk result (IsTableOf self.now ranking) }
        ensures told { (told : List Telling) → IsCounted self.now told
            → IfOk result (λ table. AreTold ranking.by told table.rows) }
    {
        let usual = if self.span.is_some() {
            Order::Total
        } else {
            Order::Count
        };
        let rows = self.rows(alloc, ranking.by, ranking.order.unwrap_or(usual))?;
        let open = self
            .functions
            .calls
            .counts(alloc, self.functions.rows.len())?;
        let limit = ranking.limit as usize;
        let columns = columns_of(alloc, &rows, self.span.is_some(), limit, &open)?;
        Ok(Table {
            by: ranking.by,
            rows,
            columns,
            open,
            unpaired: self.functions.calls.unpaired,
            limit,
            messages: self.messages,
            unread: self.unread,
            lost: self.lost,
            span: self.span,
            bars: self.course.shown(),
        })
    }

    /// The rows, in this order.
    fn rows(&self, alloc: Global, by: Grouping, order: Order) -> Result<Rows<'_>, AllocError>
        ensures each { IfOk result (HasEachRow self.now by) }
        ensures told { (told : List Telling) → IsCounted self.now told
            → IfOk result (AreTold by told) }
    {
        has_each_once(&self.functions.rows);
        has_each_once(&self.processes.rows);
        Ok(match by {
            Grouping::Function => Rows::Functions(lines_of(alloc, &self.functions.rows, order)?),
            Grouping::Process => Rows::Processes(lines_of(alloc, &self.processes.rows, order)?),
            Grouping::Kind => Rows::Kinds(lines_of_kinds(alloc, &self.kinds.rows)?),
        })
    }
}

/// No text has two rows.
fn has_each_once<R: Drop>(rows: &HashMap<Vec<u8>, R>)
    ensures { IsUnique (λ one other. bytes_eq one.items other.items) rows.now }
{
    let _count = rows.len();
}

/// The columns of a table with these rows.
fn columns_of(
    alloc: Global,
    rows: &Rows<'_>,
    is_timed: bool,
    limit: usize,
    open: &[u64],
) -> Result<Vec<Column>, AllocError> {
    match rows {
        Rows::Functions(lines) if is_timed => {
            fitted(alloc, &TIMED_FUNCTIONS, lines, limit, open)
        }
        Rows::Functions(lines) => fitted(alloc, &FUNCTIONS, lines, limit, open),
        Rows::Processes(lines) => fitted(alloc, &PROCESSES, lines, limit, open),
        Rows::Kinds(lines) => fitted(alloc, &KINDS, lines, limit, open),
    }
}

/// Columns with these numbers, each as wide as the first lines need.
fn fitted<R: Shown>(
    alloc: Global,
    figures: &[Figure],
    lines: &[Line<'_, R>],
    limit: usize,
    open: &[u64],
) -> Result<Vec<Column>, AllocError> {
    let mut columns = Vec::new(alloc);
    for figure in figures {
        columns.push(Column {
            figure: *figure,
            width: width_of(*figure, lines, limit, open),
        })?;
    }
    Ok(columns)
}

/// How wide the column of a number is.
fn width_of<R: Shown>(figure: Figure, lines: &[Line<'_, R>], limit: usize, open: &[u64]) -> usize {
    let mut width = figure.name().len();
    for line in lines.iter().take(limit) {
        width = width.max(line.row.cell(figure, line.text, open).width());
    }
    width
}

impl fmt::Display for Table<'_> {
    fn fmt<W: fmt::Write>(&self, f: &mut fmt::Formatter<W>) -> fmt::Result {
        match &self.rows {
            Rows::Functions(lines) => self.tell_rows(f, lines)?,
            Rows::Processes(lines) => self.tell_rows(f, lines)?,
            Rows::Kinds(lines) => self.tell_rows(f, lines)?,
        }
        if matches!(self.rows, Rows::Functions(_)) {
            self.tell_unpaired(f)?;
        }
        self.tell_course(f)?;
        self.tell_summary(f)
    }
}

impl Table<'_> {
    /// What a row is for.
    pub fn word(&self) -> &'static str
        ensures { result.now ≡ word_of self.now.by }
    {
        match self.by {
            Grouping::Function => "function",
            Grouping::Process => "process",
            Grouping::Kind => "kind",
        }
    }

    /// The names of the columns, the rows that are shown, and how many aren't, where some aren't.
    fn tell_rows<W: fmt::Write, R: Shown>(
        &self,
        f: &mut fmt::Formatter<W>,
        lines: &[Line<'_, R>],
    ) -> fmt::Result {
        for column in &self.columns {
            let name = column.figure.name();
            tell_blanks(f, column.width, name.len())?;
            write!(f, "{name} ")?;
        }
        writeln!(f, " {}", self.word())?;
        for line in lines.iter().take(self.limit) {
            self.tell_row(f, line)?;
        }
        match lines.len().saturating_sub(self.limit) {
            0 => Ok(()),
            more => writeln!(f, ".. and {more} more"),
        }
    }

    /// The numbers of a row, each under the end of its name, and what it is for.
    fn tell_row<W: fmt::Write, R: Shown>(
        &self,
        f: &mut fmt::Formatter<W>,
        line: &Line<'_, R>,
    ) -> fmt::Result {
        for column in &self.columns {
            let cell = line.row.cell(column.figure, line.text, &self.open);
            tell_blanks(f, column.width, cell.width())?;
            write!(f, "{cell} ")?;
        }
        writeln!(f, " {}", Readable(line.text))
    }

    /// How many calls and ends don't belong together, where some don't; and that there are no times, where that is so.
    fn tell_unpaired<W: fmt::Write>(&self, f: &mut fmt::Formatter<W>) -> fmt::Result {
        let Unpaired { calls, ends } = self.unpaired;
        if calls > 0 || ends > 0 {
            writeln!(
                f,
                "{calls} calls without an end, {ends} ends without a call"
            )?;
        }
        if self.span.is_none() {
            f.write_str(NO_TIMES)?;
        }
        Ok(())
    }

    /// Where in the trace the messages lie, and those that were lost; and how many came in a second.
    fn tell_course<W: fmt::Write>(&self, f: &mut fmt::Formatter<W>) -> fmt::Result {
        let most = self.bars.most();
        if most == 0 {
            return Ok(());
        }
        for bar in self.bars.shares() {
            f.write_char(height(*bar, most))?;
        }
        writeln!(f)?;
        if self.bars.lost() > 0 {
            self.tell_lost(f)?;
        }
        match self.span.map(Span::nanoseconds) {
            None | Some(0) => Ok(()),
            Some(nanoseconds) => {
                let peak = in_a_second(most, self.bars.length());
                let mean = in_a_second(self.messages, nanoseconds);
                writeln!(f, "{peak} messages a second at the most, {mean} on average")
            }
        }
    }

    /// Marks the shares in which messages were lost.
    fn tell_lost<W: fmt::Write>(&self, f: &mut fmt::Formatter<W>) -> fmt::Result {
        for bar in self.bars.shares() {
            f.write_char(if bar.lost > 0 { 'x' } else { ' ' })?;
        }
        writeln!(f, " {} lost", self.bars.lost())
    }

    /// How many messages there are, and over which time.
    fn tell_summary<W: fmt::Write>(&self, f: &mut fmt::Formatter<W>) -> fmt::Result {
        write!(f, "{} messages", self.messages)?;
        if self.unread > 0 {
            write!(f, ", {} unread", self.unread)?;
        }
        if self.lost > 0 {
            write!(f, ", {} lost", self.lost)?;
        }
        if let Some(span) = self.span {
            let (seconds, micros) = seconds_and_micros(span.nanoseconds());
            write!(f, ", over {seconds}.{micros:06} seconds")?;
        }
        writeln!(f)
    }
}

/// As many blanks as a text of this length lacks of a width.
fn tell_blanks<W: fmt::Write>(
    f: &mut fmt::Formatter<W>,
    width: usize,
    length: usize,
) -> fmt::Result {
    for _ in length..width {
        f.write_char(' ')?;
    }
    Ok(())
}

/// How high the bar of a share is, in eighths of the highest, which has this many messages; those that are begun count.
fn height(bar: Bar, most: u64) -> char {
    let eighths = bar.messages.saturating_mul(8).div_ceil(most.max(1));
    let height = usize::try_from(eighths).unwrap_or(0);
    BARS.get(height).copied().unwrap_or('█')
}

/// So many in so many nanoseconds, told of a second.
fn in_a_second(count: u64, nanoseconds: u64) -> u64 {
    let seconds = u128::from(nanoseconds.max(1));
    let all = u128::from(count) * 1_000_000_000;
    u64::try_from(all / seconds).unwrap_or(u64::MAX)
}

/// Whole seconds, and the microseconds after them.
fn seconds_and_micros(nanoseconds: u64) -> (u64, u64) {
    let micros = nanoseconds / 1_000;
    (micros / 1_000_000, micros % 1_000_000)
}

/// A text that may have bytes that aren't UTF-8, each of which is told as U+FFFD.
#[derive(Clone, Copy)]
struct Readable<'t>(&'t [u8]);

impl fmt::Display for Readable<'_> {
    fn fmt<W: fmt::Write>(&self, f: &mut fmt::Formatter<W>) -> fmt::Result {
        for chunk in self.0.utf8_chunks() {
            f.write_str(chunk.valid())?;
            if !chunk.invalid().is_empty() {
                f.write_str("\u{FFFD}")?;
            }
        }
        Ok(())
    }
}

//! The rows of a table, in order.
ghost use Rattle.std.specs.Prelude.{◌≡◌, IfOk, IsPermutation};
ghost use Rattle.trace_views.specs.Lines.{kind_pairs, line_pairs, row_pairs};

use crate::messages::KindRow;
use crate::row::{FunctionRow, ProcessRow};
use command_line::Order;
use std::alloc::{AllocError, Global};
use std::collections::HashMap;

/// What a row is put in order by.
pub trait Ranked: Copy {
    /// The greater, the earlier it is shown.
    fn rank(&self, order: Order) -> u64;
}

impl Ranked for FunctionRow {
    fn rank(&self, order: Order) -> u64 {
        match order {
            Order::Count | Order::Waiting => self.calls,
            Order::Exceptions => self.exceptions,
            Order::Total => self.times.total,
            Order::Mean => self.times.mean().unwrap_or(0),
            Order::Longest => self.times.longest,
        }
    }
}

impl Ranked for ProcessRow {
    fn rank(&self, order: Order) -> u64 {
        match order {
            Order::Waiting => self.waiting.most,
            _ => self.calls,
        }
    }
}

/// A row, with the text that it is for.
#[derive(Clone, Copy)]
pub struct Line<'t, R> {
    rank: u64,
    pub text: &'t [u8],
    pub row: R,
}

/// A line for each row, the greatest first, and those that are equal by their texts.
pub fn lines_of<R: Ranked + Drop>(
    alloc: Global,
    rows: &HashMap<Vec<u8>, R>,
    order: Order,
) -> Result<Vec<Line<'_, R>>, AllocError>
    ensures { IfOk result (λ lines.
        IsPermutation (row_pairs rows.now.entries) (line_pairs lines.items)) }
{
    let lines = unordered(alloc, rows, order)?;
    in_order(lines)
}

/// A line for each kind, in the same order.
pub fn lines_of_kinds(
    alloc: Global,
    rows: &[KindRow],
) -> Result<Vec<Line<'static, u64>>, AllocError>
    ensures { IfOk result (λ lines. IsPermutation (kind_pairs rows.now) (line_pairs lines.items)) }
{
    let mut lines = Vec::new(alloc);
    for row in rows {
        lines.push(Line {
            rank: row.count,
            text: row.word.as_bytes(),
            row: row.count,
        })?;
    }
    in_order(lines)
}

/// The lines, the greatest first, and those that are equal by their texts.
fn in_order<R: Drop>(mut lines: Vec<Line<'_, R>>) -> Result<Vec<Line<'_, R>>, AllocError>
    ensures { IfOk result (λ ordered.
        IsPermutation (line_pairs lines.entry.items) (line_pairs ordered.items)) }
{
    lines.sort_by(|one, other| {
        other
            .rank
            .cmp(&one.rank)
            .then_with(|| one.text.cmp(other.text))
    })?;
    Ok(lines)
}

/// A line for each row.
fn unordered<R: Ranked + Drop>(
    alloc: Global,
    rows: &HashMap<Vec<u8>, R>,
    order: Order,
) -> Result<Vec<Line<'_, R>>, AllocError>
    ensures { IfOk result (λ lines. line_pairs lines.items ≡ row_pairs rows.now.entries) }
{
    let mut lines = Vec::new(alloc);
    for (text, row) in rows.iter() {
        lines.push(Line {
            rank: row.rank(order),
            text: text.as_slice(),
            row: *row,
        })?;
    }
    Ok(lines)
}

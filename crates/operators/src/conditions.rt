// Conditions, worked out over a long row: the context, then a row. They take no cells.
ghost use Rattle.std.specs.Prelude.{◌≡◌, ◌<◌, List, ◌++◌, length, slice_index_or};
ghost use Rattle.cells.specs.declared.cell.Cell.{Cell};
ghost use Rattle.cells.specs.declared.cell.Cell.TheVariants.{Null};
ghost use Rattle.lines.specs.Trees.{side_at, truth_at};
ghost use Rattle.lines.specs.Shapes.{Ordered};
ghost use Rattle.operators.specs.Places.{next_row, Next};
ghost use Rattle.operators.specs.Conditions.{condition_at, Ordered-prop};

use crate::region::Region;
use cells::cell::Cell;
use cells::truth::Truth;
use lines::line::{Line, Side};
use std::marker::Model;

// The context and a row, seen as one row.
#[derive(Drop)]
pub struct LongRow<'a> {
    pub context: &'a [Cell],
    pub row: &'a [Cell],
}

impl<'a> Model for LongRow<'a> {
    ghost Value = { List Cell };

    ghost view = { λ r. r.context.now ++ r.row.now };
}

impl<'a> LongRow<'a> {
    // The context with the row that lies behind those in front.
    pub(crate) fn after(context: &'a [Cell], cells: &'a [Cell], front: Region) -> LongRow<'a>
        requires { Next front (length cells.now) }
        ensures { result ≡ context.now ++ next_row cells.now front }
    {
        let at = front.end();
        LongRow {
            context,
            row: &cells[at..at + front.width],
        }
    }
}

impl LongRow<'_> {
    // A column's cell; NULL past its end.
    pub fn cell(&self, column: usize) -> Cell
        ensures { result ≡ slice_index_or self.now column Null }
    {
        let context = self.context;
        if column < context.len() {
            context[column]
        } else {
            self.row
                .get(column - context.len())
                .copied()
                .unwrap_or(Cell::Null)
        }
    }

    pub(crate) fn side(&self, side: Side) -> Cell
        ensures { result ≡ side_at side self.now }
    {
        match side {
            Side::Column(column) => self.cell(column),
            Side::Constant(number) => Cell::Number(number),
        }
    }
}

// A condition on a line. Its operands are lower lines.
#[derive(Clone, Copy)]
pub struct Condition<'a> {
    pub lines: &'a [Line],
    pub line: usize,
    pub ghost ordered: { Ordered lines.now } by { Ordered-prop lines.now },
    pub ghost within: { line < length lines.now },
}

impl Condition<'_> {
    pub(crate) fn truth(&self, row: &LongRow) -> Truth
        ensures { result ≡ truth_at (condition_at self.now.lines.now self.now.line) row.now }
    {
        self.truth_on(self.line, row)
    }

    // The truth of the condition on a line. Of a line with rows, which no condition reads, it is that of column 0 being NULL.
    #[cycle(truths)]
    fn truth_on(&self, line: usize, row: &LongRow) -> Truth
        requires { line < length self.now.lines.now }
        ensures { result ≡ truth_at (condition_at self.now.lines.now line) row.now }
    {
        match self.lines[line] {
            Line::Compare { sign, left, right } => sign.compare(row.side(left), row.side(right)),
            Line::IsNull { column } => Truth::from(row.cell(column).is_null()),
            Line::Not { condition } => self.truth_on(condition, row).not(),
            Line::Unknown { condition } => self.truth_on(condition, row).unknown(),
            Line::And { left, right } => {
                let (first, second) = self.both(left, right, row);
                first.and(second)
            }
            Line::Or { left, right } => {
                let (first, second) = self.both(left, right, row);
                first.or(second)
            }
            _ => Truth::from(row.cell(0).is_null()),
        }
    }

    // The truths of two. Never inlined: what has to last from the first to the second would cost each other condition too.
    #[inline(never)]
    #[cycle(truths)]
    fn both(&self, left: usize, right: usize, row: &LongRow) -> (Truth, Truth)
        requires left { left < length self.now.lines.now }
        requires right { right < length self.now.lines.now }
        ensures first { result.0 ≡ truth_at (condition_at self.now.lines.now left) row.now }
        ensures second { result.1 ≡ truth_at (condition_at self.now.lines.now right) row.now }
    {
        (self.truth_on(left, row), self.truth_on(right, row))
    }
}

// Operators that give one row for each row of their operand.
ghost use Rattle.std.specs.Prelude.{◌≡◌, ◌+◌, ◌-◌, ◌*◌, ◌<◌, ◌≤◌, [], ◌∷◌, ◌++◌, map, length, replicate};
ghost use Rattle.cells.specs.Cells.{as_cell};
ghost use Rattle.cells.specs.declared.cell.Cell.TheVariants.{Null};
ghost use Rattle.lines.specs.Ops.{keep_row};
ghost use Rattle.lines.specs.Trees.{side_at, truth_at};
ghost use Rattle.operators.specs.Places.{rows_in, next_row, Stands, Next, Room};
ghost use Rattle.operators.specs.Laid.{Lays};
ghost use Rattle.operators.specs.Conditions.{condition_at};

use crate::conditions::{Condition, LongRow};
use crate::moves::{copy, fits, put, put_nulls};
use crate::region::Region;
use crate::turns::lay_each;
use cells::cell::Cell;
use lines::line::Side;

// Lays the first and the last columns of the row after those in front.
fn keep_row(
    cells: &mut [Cell],
    front: Region,
    first: usize,
    last: usize,
    to: usize,
) -> Option<usize>
    requires some { first + last ≤ front.width }
    requires next { Next front to }
    requires room { to ≤ length cells.old }
    ensures { Lays cells.old cells.new to (first + last) (keep_row first last (next_row cells.old front) ∷ []) result }
{
    fits(cells, to, first + last)?;
    let at = front.end();
    copy(cells, at, to, first);
    copy(cells, at + (front.width - last), to + first, last);
    Some(1)
}

// That row with one cell more.
fn extend_row(cells: &mut [Cell], front: Region, cell: Cell, to: usize) -> Option<usize>
    requires next { Next front to }
    requires room { to ≤ length cells.old }
    ensures { Lays cells.old cells.new to (front.width + 1) ((next_row cells.old front ++ (cell ∷ [])) ∷ []) result }
{
    fits(cells, to, front.width + 1)?;
    copy(cells, front.end(), to, front.width);
    put(cells, to + front.width, cell);
    Some(1)
}

// That row with NULLs more.
fn pad_row(cells: &mut [Cell], front: Region, nulls: usize, to: usize) -> Option<usize>
    requires nulls { nulls ≤ 32 }
    requires next { Next front to }
    requires room { to ≤ length cells.old }
    ensures { Lays cells.old cells.new to (front.width + nulls) ((next_row cells.old front ++ replicate nulls Null) ∷ []) result }
{
    fits(cells, to, front.width + nulls)?;
    copy(cells, front.end(), to, front.width);
    put_nulls(cells, to + front.width, nulls);
    Some(1)
}

pub fn keep(
    cells: &mut [Cell],
    rows: Region,
    first: usize,
    last: usize,
    out: usize,
) -> Option<usize>
    requires some { first + last ≤ rows.width }
    requires rows { Stands rows out }
    requires room { Room cells.old out }
    ensures { Lays cells.old cells.new out (first + last) (map (keep_row first last) (rows_in cells.old rows)) result }
{
    lay_each(
        cells,
        rows,
        first + last,
        out,
        |cells: &mut [Cell], front: Region, to: usize| keep_row(cells, front, first, last, to),
    )
}

pub fn extend(
    context: &[Cell],
    cells: &mut [Cell],
    rows: Region,
    value: Side,
    out: usize,
) -> Option<usize>
    requires rows { Stands rows out }
    requires room { Room cells.old out }
    ensures { Lays cells.old cells.new out (rows.width + 1)
        (map (λ x. x ++ (side_at value (context.now ++ x) ∷ [])) (rows_in cells.old rows)) result }
{
    lay_each(
        cells,
        rows,
        rows.width + 1,
        out,
        |cells: &mut [Cell], front: Region, to: usize| {
            let cell = LongRow::after(context, cells, front).side(value);
            extend_row(cells, front, cell, to)
        },
    )
}

pub fn extend_truth(
    condition: Condition,
    context: &[Cell],
    cells: &mut [Cell],
    rows: Region,
    out: usize,
) -> Option<usize>
    requires rows { Stands rows out }
    requires room { Room cells.old out }
    ensures { Lays cells.old cells.new out (rows.width + 1)
        (map (λ x. x ++ (as_cell (truth_at (condition_at condition.entry.lines.now condition.entry.line) (context.now ++ x)) ∷ [])) (rows_in cells.old rows)) result }
{
    lay_each(
        cells,
        rows,
        rows.width + 1,
        out,
        |cells: &mut [Cell], front: Region, to: usize| {
            let truth = condition.truth(&LongRow::after(context, cells, front));
            extend_row(cells, front, Cell::from(truth), to)
        },
    )
}

pub fn pad(cells: &mut [Cell], rows: Region, nulls: usize, out: usize) -> Option<usize>
    requires nulls { nulls ≤ 32 }
    requires rows { Stands rows out }
    requires room { Room cells.old out }
    ensures { Lays cells.old cells.new out (rows.width + nulls)
        (map (λ x. x ++ replicate nulls Null) (rows_in cells.old rows)) result }
{
    lay_each(
        cells,
        rows,
        rows.width + nulls,
        out,
        |cells: &mut [Cell], front: Region, to: usize| pad_row(cells, front, nulls, to),
    )
}

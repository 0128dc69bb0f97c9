// Aggregates, and the operators that have them.
ghost use Rattle.std.specs.Prelude.{◌≡◌, ℕ, ◌+◌, ◌*◌, ◌<◌, ◌≤◌, true, cond, [], ◌∷◌, ◌++◌, map, length, take, ℤ, ◌+ℤ◌, slice_index_or};
ghost use Rattle.cells.specs.Cells.{same_row};
ghost use Rattle.cells.specs.declared.cell.Cell.TheVariants.{Null};
ghost use Rattle.lines.specs.Ops.{step_of, folded, group_rows};
ghost use Rattle.operators.specs.Places.{row_at, rows_in, next_row, Stands, Next, Room};
ghost use Rattle.operators.specs.Laid.{Lays};
ghost use Rattle.operators.specs.Folds.{addable, Addable, adds, best_of, result_of, Within, folded_alike, grouped};

use crate::conditions::LongRow;
use crate::filters::has_alike;
use crate::moves::{copy, fits, put, same_cells};
use crate::region::{Operands, Region};
use crate::turns::lay_each;
use cells::cell::Cell;
use lines::line::Aggregate;

// What has been worked out so far: a count or a sum in `sum`, a least or greatest number in `best`, which is None until a filled cell comes.
#[derive(Clone, Copy)]
struct Running {
    sum: i64,
    best: Option<i64>,
}

// What a cell adds to a count or a sum.
fn added(aggregate: Aggregate, cell: Cell) -> i64
    ensures { result ≡ adds aggregate cell }
{
    match (aggregate, cell) {
        (Aggregate::Rows, _) => 1,
        (Aggregate::Filled, Cell::Number(_)) => 1,
        (Aggregate::Sum, Cell::Number(number)) => number,
        _ => 0,
    }
}

// The least or greatest number so far, one cell on.
fn better(aggregate: Aggregate, cell: Cell, best: Option<i64>) -> Option<i64>
    ensures { result ≡ best_of aggregate cell best }
{
    match (aggregate, cell, best) {
        (Aggregate::Least, Cell::Number(a), Some(b)) => Some(a.min(b)),
        (Aggregate::Greatest, Cell::Number(a), Some(b)) => Some(a.max(b)),
        (Aggregate::Least | Aggregate::Greatest, Cell::Number(a), None) => Some(a),
        _ => best,
    }
}

impl Running {
    // The sum, one cell on.
    fn sum_with(self, aggregate: Aggregate, cell: Cell) -> i64
        requires addable { addable aggregate cell ≡ true }
        requires few { Within 65535 self.sum }
        ensures { result ≡ adds aggregate cell +ℤ self.sum }
    {
        added(aggregate, cell) + self.sum
    }

    // One cell on.
    fn step(self, aggregate: Aggregate, cell: Cell) -> Running
        requires addable { addable aggregate cell ≡ true }
        requires few { Within 65535 self.sum }
        ensures value { result_of aggregate result ≡ step_of aggregate cell (result_of aggregate self) }
        ensures within { (n : ℕ) → Within n self.sum → Within (n + 1) result.sum }
    {
        Running {
            sum: self.sum_with(aggregate, cell),
            best: better(aggregate, cell, self.best),
        }
    }

    // The aggregate's cell.
    fn finish(self, aggregate: Aggregate) -> Cell
        ensures { result ≡ result_of aggregate self }
    {
        match (aggregate, self.best) {
            (Aggregate::Rows | Aggregate::Filled | Aggregate::Sum, _) => Cell::Number(self.sum),
            (_, Some(number)) => Cell::Number(number),
            (_, None) => Cell::Null,
        }
    }
}

// An aggregate over a column of long rows. What a sum may add is a fact of the rows too, so each method asks it of those it is given.
#[derive(Clone, Copy)]
pub struct Fold<'a> {
    pub aggregate: Aggregate,
    pub column: usize,
    pub context: &'a [Cell],
}

impl Fold<'_> {
    // One row on: that after the ones in front, if it begins with the n cells at `at`.
    fn step_row(
        &self,
        running: Running,
        cells: &[Cell],
        at: usize,
        n: usize,
        front: Region,
    ) -> Running
        requires next { Next front (length cells.now) }
        requires key { at + n ≤ length cells.now }
        requires keys { n ≤ front.width }
        requires addable { addable self.now.aggregate (slice_index_or (self.now.context.now ++ next_row cells.now front) self.now.column Null) ≡ true }
        requires few { Within 65535 running.sum }
        ensures value { result_of self.now.aggregate result ≡ cond (same_row (row_at cells.now at n) (take n (next_row cells.now front)))
            (step_of self.now.aggregate (slice_index_or (self.now.context.now ++ next_row cells.now front) self.now.column Null) (result_of self.now.aggregate running)) (result_of self.now.aggregate running) }
        ensures within { (n : ℕ) → Within n running.sum → Within (n + 1) result.sum }
    {
        if !same_cells(cells, at, front.end(), n) {
            return running;
        }
        let row = LongRow::after(self.context, cells, front);
        running.step(self.aggregate, row.cell(self.column))
    }

    // The aggregate over the rows that begin with the n cells at `at`.
    fn alike(&self, cells: &[Cell], at: usize, n: usize, rows: Region) -> Cell
        requires rows { Stands rows (length cells.now) }
        requires few { rows.rows ≤ 65536 }
        requires key { at + n ≤ length cells.now }
        requires keys { n ≤ rows.width }
        requires addable { Addable self.now.aggregate self.now.column self.now.context.now (rows_in cells.now rows) }
        ensures { result ≡ folded_alike n self.now.aggregate self.now.column self.now.context.now (row_at cells.now at n) (rows_in cells.now rows) }
    {
        // That each sum fits and what it is go by one invariant here; a fold would leave an induction for each.
        let mut running = Running { sum: 0, best: None };
        for j in (0..rows.rows).rev() {
            running = self.step_row(running, cells, at, n, rows.front(j));
        }
        running.finish(self.aggregate)
    }

    // One row of one cell: the aggregate over all rows.
    pub fn total(&self, cells: &mut [Cell], rows: Region, out: usize) -> Option<usize>
        requires rows { Stands rows out }
        requires addable { Addable self.now.aggregate self.now.column self.now.context.now (rows_in cells.old rows) }
        requires room { Room cells.old out }
        ensures { Lays cells.old cells.new out 1
            ((folded self.now.aggregate self.now.column (map (λ x. self.now.context.now ++ x) (rows_in cells.old rows)) ∷ []) ∷ []) result }
    {
        fits(cells, out, 1)?;
        let cell = self.alike(cells, out, 0, rows);
        put(cells, out, cell);
        Some(1)
    }

    // Lays the row's first columns with the aggregate over the rows that share them, if no row in front has them.
    fn group_row(
        &self,
        cells: &mut [Cell],
        front: Region,
        rows: Region,
        keys: usize,
        to: usize,
    ) -> Option<usize>
        requires next { Next front to }
        requires rows { Stands rows to }
        requires front_keys { keys ≤ front.width }
        requires keys { keys ≤ rows.width }
        requires addable { Addable self.now.aggregate self.now.column self.now.context.now (rows_in cells.old rows) }
        requires room { Room cells.old to }
        ensures { Lays cells.old cells.new to (keys + 1)
            (grouped keys self.now.aggregate self.now.column self.now.context.now (rows_in cells.old rows) (rows_in cells.old front) (next_row cells.old front)) result }
    {
        let same = Operands {
            left: front,
            right: front,
            shared: keys,
        };
        if has_alike(cells, same) {
            return Some(0);
        }
        fits(cells, to, keys + 1)?;
        let at = front.end();
        let cell = self.alike(cells, at, keys, rows);
        copy(cells, at, to, keys);
        put(cells, to + keys, cell);
        Some(1)
    }

    // For each different start of a row, by first appearance, this and the aggregate over its rows.
    #[inline(never)]
    pub fn group(&self, cells: &mut [Cell], rows: Region, keys: usize, out: usize) -> Option<usize>
        requires rows { Stands rows out }
        requires keys { keys ≤ rows.width }
        requires addable { Addable self.now.aggregate self.now.column self.now.context.now (rows_in cells.old rows) }
        requires room { Room cells.old out }
        ensures { Lays cells.old cells.new out (keys + 1)
            (group_rows keys self.now.aggregate self.now.column self.now.context.now (rows_in cells.old rows)) result }
    {
        lay_each(
            cells,
            rows,
            keys + 1,
            out,
            |cells: &mut [Cell], front: Region, to: usize| {
                self.group_row(cells, front, rows, keys, to)
            },
        )
    }
}

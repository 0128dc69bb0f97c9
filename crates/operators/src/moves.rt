// Cells that are written or compared where they lie.
ghost use Rattle.std.specs.Prelude.{◌≡◌, ◌+◌, ◌<◌, ◌≤◌, [], ◌∷◌, length, replicate, MatchOption};
ghost use Rattle.cells.specs.Cells.{same_row};
ghost use Rattle.cells.specs.declared.cell.Cell.TheVariants.{Null};
ghost use Rattle.operators.specs.Places.{row_at};
ghost use Rattle.operators.specs.Laid.{Put};

use cells::cell::Cell;

// None where fewer than `count` cells follow from `to` on, which ends an operator by `?`.
pub(crate) fn fits(cells: &[Cell], to: usize, count: usize) -> Option<()>
    requires { to ≤ length cells.now }
    ensures { MatchOption result (length cells.now < to + count) (λ _. to + count ≤ length cells.now) }
{
    if cells.len() - to < count {
        return None;
    }
    Some(())
}

// Copies `count` cells from `from` to `to`.
pub fn copy(cells: &mut [Cell], from: usize, to: usize, count: usize)
    requires source { from + count ≤ length cells.old }
    requires target { to + count ≤ length cells.old }
    ensures { Put cells.old cells.new to count (row_at cells.old from count) }
{
    cells.copy_within(from..from + count, to);
}

// Lays `count` NULLs at `to`.
pub fn put_nulls(cells: &mut [Cell], to: usize, count: usize)
    requires { to + count ≤ length cells.old }
    ensures { Put cells.old cells.new to count (replicate count Null) }
{
    cells[to..to + count].fill(Cell::Null);
}

// Lays one cell at `to`.
pub(crate) fn put(cells: &mut [Cell], to: usize, cell: Cell)
    requires { to < length cells.old }
    ensures { Put cells.old cells.new to 1 (cell ∷ []) }
{
    cells[to] = cell;
}

// Whether the n cells at `a` and at `b` are the same.
pub(crate) fn same_cells(cells: &[Cell], a: usize, b: usize, n: usize) -> bool
    requires first { a + n ≤ length cells.now }
    requires second { b + n ≤ length cells.now }
    ensures { result ≡ same_row (row_at cells.now a n) (row_at cells.now b n) }
{
    (0..n).all(|k| cells[a + k].same(cells[b + k]))
}

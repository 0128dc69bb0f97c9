// The cells as a call leaves them where they suffice.
ghost use Rattle.std.specs.Prelude.{◌≡◌, ◌-◌, ◌*◌, ◌++◌, length, replicate};
ghost use Rattle.std.specs.List.{flat_map};
ghost use Rattle.cells.specs.declared.cell.Cell.TheVariants.{Null};
ghost use Rattle.operators.specs.Places.{rows_in, Stands, Room};

use cells::cell::Cell;
use operators::moves::copy;
use operators::region::Region;

// Moves the rows of a region to the front, and sets every other cell to NULL.
pub(crate) fn settle(cells: &mut [Cell], rows: Region)
    requires stands { Stands rows (length cells.old) }
    requires room { Room cells.old 0 }
    ensures { cells.new ≡ flat_map (λ r. r) (rows_in cells.old rows) ++ replicate (length cells.old - rows.rows * rows.width) Null }
{
    let count = rows.rows * rows.width;
    copy(cells, rows.start, 0, count);
    cells[count..].fill(Cell::Null);
}

// Operators that go over an operand's rows in order, and lay what each gives behind what was laid.
ghost use Rattle.std.specs.Prelude.{◌<◌, ◌⊎◌, List, []};
ghost use Rattle.cells.specs.Cells.{Row};
ghost use Rattle.operators.specs.Places.{rows_in, Stands, Room};
ghost use Rattle.operators.specs.Laid.{Lays};
ghost use Rattle.operators.specs.Steps.{each};
ghost use Rattle.operators.specs.Turns.{LaysEach, CountsOne};

use crate::region::Region;
use cells::cell::Cell;

// For each row in order, lays the rows of `width` cells that it gives, and counts all. The step does this for one row: it gets the cells, the rows in front
// of that row, behind which it lies, and the place to lay at, and counts what it laid.
pub(crate) fn lay_each<F: Fn(&mut [Cell], Region, usize) -> Option<usize>>(
    cells: &mut [Cell],
    rows: Region,
    width: usize,
    out: usize,
    step: F,
) -> Option<usize>
    requires steps { (gives : List Row → Row → List Row) × LaysEach F.Fn step gives cells.old rows out width }
    requires rows { Stands rows out }
    requires counted { (0 < width) ⊎ CountsOne F.Fn step cells.old rows out }
    requires room { Room cells.old out }
    ensures { (gives : List Row → Row → List Row) → LaysEach F.Fn step gives cells.old rows out width
        → Lays cells.old cells.new out width (each gives [] (rows_in cells.old rows)) result }
{
    // What was laid says where the next rows go, and each step writes the cells, so no chain can run it.
    let mut k = 0;
    for i in 0..rows.rows {
        k += step(cells, rows.front(i), out + k * width)?;
    }
    Some(k)
}

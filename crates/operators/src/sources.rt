// Rows that come from no operand, and the Union.
ghost use Rattle.std.specs.Prelude.{◌≡◌, [], ◌∷◌, ◌++◌, pos};
ghost use Rattle.cells.specs.declared.cell.Cell.TheVariants.{Number};
ghost use Rattle.operators.specs.Places.{rows_in, Stands, Room};
ghost use Rattle.operators.specs.Laid.{Lays};

use crate::moves::{copy, fits, put};
use crate::region::Region;
use cells::cell::Cell;

// One row of one cell, 0.
pub fn unit(cells: &mut [Cell], out: usize) -> Option<usize>
    requires room { Room cells.old out }
    ensures { Lays cells.old cells.new out 1 ((Number (pos 0) ∷ []) ∷ []) result }
{
    fits(cells, out, 1)?;
    put(cells, out, Cell::Number(0));
    Some(1)
}

// The left rows, then the right ones.
pub fn union(cells: &mut [Cell], left: Region, right: Region, out: usize) -> Option<usize>
    requires left { Stands left out }
    requires right { Stands right out }
    requires equal { right.width ≡ left.width }
    requires room { Room cells.old out }
    ensures { Lays cells.old cells.new out left.width (rows_in cells.old left ++ rows_in cells.old right) result }
{
    let first = left.rows * left.width;
    let second = right.rows * right.width;
    fits(cells, out, first + second)?;
    copy(cells, left.start, out, first);
    copy(cells, right.start, out + first, second);
    Some(left.rows + right.rows)
}

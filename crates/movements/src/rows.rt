// Rows as they are given and as they are kept.
ghost use Rattle.std.specs.Prelude.{◌≡◌, ◌≤◌, true, length, take};
ghost use Rattle.stock.specs.Tables.{every};
ghost use Rattle.cells.specs.Cells.{stored};
ghost use Rattle.movements.specs.Moves.{row_fault};

use cells::cell::Cell;
use stock::limits::MOST_COLUMNS;

// What is wrong with a row for a table of a width: its own width, or the first column at fault.
pub(crate) fn fault(row: &[Cell], width: usize) -> Option<usize>
    ensures { result ≡ row_fault width row.now }
{
    if row.len() != width {
        return Some(row.len());
    }
    row.iter().position(|cell| !cell.is_stored())
}

// A row of at most eight cells, followed by NULLs.
pub(crate) fn padded(row: &[Cell]) -> [Cell; MOST_COLUMNS]
    requires { (length row.now ≤ 8) × (every stored row.now ≡ true) }
    ensures long { length result ≡ 8 }
    ensures front { take (length row.now) result ≡ row.now }
    ensures numbers { every stored result ≡ true }
{
    let mut cells = [Cell::Null; MOST_COLUMNS];
    cells[..row.len()].copy_from_slice(row);
    cells
}

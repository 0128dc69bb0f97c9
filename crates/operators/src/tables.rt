// The rows of a stock's table, read through its questions.
ghost use Rattle.std.specs.Prelude.{◌≡◌, ◌+◌, ◌<◌, ◌≤◌, [], length, slice_index_or};
ghost use Rattle.stock.specs.Tables.{width_of, rows_of, rows_at};
ghost use Rattle.operators.specs.Places.{Room};
ghost use Rattle.operators.specs.Laid.{Put, Lays};

use crate::moves::fits;
use cells::cell::Cell;
use stock::stock::Stock;

// Lays the table's row at a place over `row`, which has a cell for each of its columns.
fn table_row<S: Stock>(stock: &S, table: usize, place: usize, row: &mut [Cell])
    requires wide { length row.old ≡ width_of (S.Stock.tables stock.now) table }
    requires shown { place < rows_of (S.Stock.tables stock.now) table }
    ensures { row.new ≡ slice_index_or (rows_at (S.Stock.tables stock.now) table) place [] }
{
    for (column, cell) in row.iter_mut().enumerate() {
        *cell = stock.cell(table, place, column);
    }
}

// The table's rows, in order.
pub fn table<S: Stock>(stock: &S, table: usize, cells: &mut [Cell], out: usize) -> Option<usize>
    requires room { Room cells.old out }
    ensures { Lays cells.old cells.new out (width_of (S.Stock.tables stock.now) table) (rows_at (S.Stock.tables stock.now) table) result }
{
    let rows = stock.row_count(table);
    let width = stock.width(table);
    fits(cells, out, rows * width)?;
    // A table outside the stock has no column, and no chunk of cells may be so narrow.
    for place in 0..rows {
        let to = out + place * width;
        table_row(stock, table, place, &mut cells[to..to + width]);
    }
    Some(rows)
}

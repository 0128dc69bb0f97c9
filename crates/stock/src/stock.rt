// The questions that every stock answers.
ghost use Rattle.std.specs.Prelude.{◌≡◌, List, length};
ghost use Rattle.stock.specs.Tables.{Table, Lawful, width_of, rows_of, cell_of};

use cells::cell::Cell;

// A stock means a list of tables. Each question is answered by that meaning; outside it the answer is 0, and NULL for a cell.
pub trait Stock {
    ghost tables: { Self → List Table };

    // The tables keep to the limits: each stock gives the proof.
    ghost lawful: { (s : Self) → Lawful (tables s) };

    fn table_count(&self) -> usize
        ensures { result ≡ length (tables self.now) };

    fn width(&self, table: usize) -> usize
        ensures { result ≡ width_of (tables self.now) table };

    fn row_count(&self, table: usize) -> usize
        ensures { result ≡ rows_of (tables self.now) table };

    fn cell(&self, table: usize, place: usize, column: usize) -> Cell
        ensures { result ≡ cell_of (tables self.now) table place column };
}

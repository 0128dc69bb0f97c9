// The shelf as a stock.
ghost use Rattle.std.specs.Prelude.{◌≡◌, ◌<◌, length, take};
ghost use Rattle.stock.specs.Tables.{width_of, rows_of};
ghost use Rattle.shelf.specs.Cut.{shelved};
ghost use Rattle.shelf.specs.Cutting.{shelved_lawful, offset};

use crate::shelf::Shelf;
use cells::cell::Cell;
use stock::stock::Stock;

impl<'a> Shelf<'a> {
    // A table's width and rows, and 0 and 0 outside.
    fn pair_at(&self, table: usize) -> (usize, usize)
        ensures width { result.0 ≡ width_of (shelved self.now.pairs.now self.now.cells.now) table }
        ensures rows { result.1 ≡ rows_of (shelved self.now.pairs.now self.now.cells.now) table }
    {
        self.shown.get(table).copied().unwrap_or((0, 0))
    }

    // Where a table's cells begin.
    fn start(&self, table: usize) -> usize
        requires { table < length (shelved self.now.pairs.now self.now.cells.now) }
        ensures { result ≡ offset (take table self.now.pairs.now) }
    {
        self.shown[..table]
            .iter()
            .map(|&(width, rows)| rows * width)
            .sum()
    }
}

impl<'a> Stock for Shelf<'a> {
    ghost tables = { λ s. shelved s.pairs.now s.cells.now };

    ghost lawful = { λ s. shelved_lawful s.pairs.now s.cells.now };

    fn table_count(&self) -> usize {
        self.shown.len()
    }

    fn width(&self, table: usize) -> usize {
        self.pair_at(table).0
    }

    fn row_count(&self, table: usize) -> usize {
        self.pair_at(table).1
    }

    #[tactic(auto, using(crate::proofs::Showing::cell_inside))]
    fn cell(&self, table: usize, place: usize, column: usize) -> Cell {
        let (width, rows) = self.pair_at(table);
        if place >= rows || column >= width {
            return Cell::Null;
        }
        self.cells[self.start(table) + place * width + column]
    }
}

// A table of the numbers below a bound, for queries that count.
ghost use Rattle.std.specs.Prelude.{◌≡◌, ◌≤◌};
ghost use Rattle.stock.specs.Tables.{ruled};
ghost use Rattle.stock.specs.Tabled.{ruled_lawful};

use crate::stock::Stock;
use cells::cell::Cell;

#[derive(Drop)]
pub struct Ruler {
    size: usize,
    ghost small: { size ≤ 65535 },
}

impl Ruler {
    // A ruler of at most 65,535.
    pub fn of(n: u16) -> Ruler
        ensures { result.size ≡ n }
    {
        Ruler {
            size: usize::from(n),
        }
    }
}

impl Stock for Ruler {
    ghost tables = { λ s. ruled s.size };

    ghost lawful = { λ s. ruled_lawful s.size s.small };

    fn table_count(&self) -> usize {
        1
    }

    fn width(&self, table: usize) -> usize {
        if table == 0 { 1 } else { 0 }
    }

    fn row_count(&self, table: usize) -> usize {
        if table == 0 { self.size } else { 0 }
    }

    fn cell(&self, table: usize, place: usize, column: usize) -> Cell {
        if table == 0 && place < self.size && column == 0 {
            Cell::Number(place as i64)
        } else {
            Cell::Null
        }
    }
}

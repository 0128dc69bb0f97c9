// What a layer keeps of its movements.
ghost use Rattle.std.specs.Prelude.{◌≡◌, ◌<◌, true, length};
ghost use Rattle.stock.specs.Tables.{every};
ghost use Rattle.cells.specs.Cells.{null_cell, stored};

use cells::cell::Cell;
use stock::limits::MOST_COLUMNS;

// A row that was added to a table; cells past the table's width are NULL.
#[derive(Clone, Copy)]
pub struct Added {
    pub table: usize,
    pub row: [Cell; MOST_COLUMNS],
    ghost long: { length row ≡ 8 },
    ghost numbers: { every stored row ≡ true },
}

// Free room holds rows of NULLs. A struct with a ghost field derives no Default.
impl Default for Added {
    ghost is_default = { λ m. (m.table ≡ 0) × (every null_cell m.row ≡ true) };

    fn default() -> Added {
        Added {
            table: 0,
            row: [Cell::Null; MOST_COLUMNS],
        }
    }
}

// A row below that was taken out, by the place at which it was then shown.
#[derive(Clone, Copy, Default)]
pub struct Hidden {
    pub table: usize,
    pub place: usize,
}

impl Hidden {
    ghost use Rattle.movements.specs.Moves.{fewer, before};

    // How many of n rows the withdrawal leaves in a table.
    pub(crate) fn shrink(self, n: usize, table: usize) -> usize
        ensures { result ≡ fewer table self n }
    {
        if self.table == table && self.place < n {
            n - 1
        } else {
            n
        }
    }

    // Where a row stood before the withdrawal.
    pub(crate) fn raise(self, q: usize, table: usize) -> usize
        requires { q < 131072 }
        ensures { result ≡ before table self q }
    {
        if self.table == table && self.place <= q {
            q + 1
        } else {
            q
        }
    }
}

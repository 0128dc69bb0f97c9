// Lent cells, table after table and row after row, with a pair of width and row count for each table.
ghost use Rattle.std.specs.Prelude.{◌≡◌};
ghost use Rattle.shelf.specs.Cut.{fault, unless_fault};

use cells::cell::Cell;

// A shelf keeps what it was lent, and shows the tables of parts that pass the check.
#[derive(Drop)]
pub struct Shelf<'a> {
    pub(crate) cells: &'a [Cell],
    pub(crate) pairs: &'a [(usize, usize)],
    // the pairs of the tables shown: all, or none where the check fails
    pub(crate) shown: &'a [(usize, usize)],
    ghost checked: { shown.now ≡ unless_fault (fault pairs.now cells.now) pairs.now },
}

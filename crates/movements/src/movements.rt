// A layer of movements over any stock, and what it shows.
ghost use Rattle.std.specs.Prelude.{◌≡◌, ◌<◌, ◌≤◌, [], length, MatchOption, slice_index_or};
ghost use Rattle.cells.specs.declared.cell.Cell.TheVariants.{Null};
ghost use Rattle.stock.specs.Tables.{width_of, rows_at};
ghost use Rattle.movements.specs.Moves.{remaining, fewer, before, added_rows, added_count, Nth};
ghost use Rattle.movements.specs.Moving.{moved_lawful};
ghost use Rattle.movements.specs.Shown.{items_of, shown_by, shown, Uncut};

use crate::bounded::Bounded;
use crate::moved::{Added, Hidden};
use cells::cell::Cell;
use stock::limits::MOST_ROWS;
use stock::stock::Stock;

// How many added rows may stand, and how many rows below may be hidden, all tables together.
pub const LIMIT: usize = 64;

// That no table is cut off stands in the clauses: as a fact of the type it would ask `S: Stock` of all who name the type.
#[derive(Drop)]
pub struct Movements<S> {
    pub(crate) below: S,
    pub(crate) added: Bounded<Added, LIMIT>,
    pub(crate) hidden: Bounded<Hidden, LIMIT>,
}

impl<S: Stock> Movements<S> {
    // No movements yet: the layer shows the rows below.
    pub fn over(below: S) -> Movements<S>
        ensures same { result.below ≡ below }
        ensures adds { result.added.count ≡ 0 }
        ensures hides { result.hidden.count ≡ 0 }
        ensures shows { shown S.Stock.tables result ≡ S.Stock.tables below }
        ensures uncut { Uncut S.Stock.tables result }
    {
        Movements {
            below,
            added: Bounded::none(Added::default()),
            hidden: Bounded::none(Hidden::default()),
        }
    }

    // How many rows below are still shown in a table.
    pub(crate) fn kept(&self, table: usize) -> usize
        ensures { result ≡ length (remaining table (items_of self.now.hidden) (rows_at (S.Stock.tables self.now.below) table)) }
    {
        self.hidden
            .as_slice()
            .iter()
            .fold(self.below.row_count(table), |n, h| h.shrink(n, table))
    }

    // Where the row stands below that is shown at a place.
    fn source(&self, table: usize, place: usize) -> usize
        requires { place < 65536 }
        ensures { slice_index_or (remaining table (items_of self.now.hidden) (rows_at (S.Stock.tables self.now.below) table)) place [] ≡ slice_index_or (rows_at (S.Stock.tables self.now.below) table) result [] }
    {
        self.hidden
            .as_slice()
            .iter()
            .rev()
            .fold(place, |q, h| h.raise(q, table))
    }

    // How many rows were added to a table.
    fn additions(&self, table: usize) -> usize
        ensures value { result ≡ added_count table (items_of self.now.added) }
        ensures few { result ≤ LIMIT }
    {
        let added = self.added.as_slice();
        // A loop over the items, which runs in vectors; `filter().count()` and `fold` do not.
        let mut n = 0;
        for m in added {
            n += usize::from(m.table == table);
        }
        n
    }

    // The index of the row added to a table after k others.
    pub(crate) fn nth(&self, table: usize, k: usize) -> Option<usize>
        ensures { MatchOption result (added_count table (items_of self.now.added) ≤ k) (λ i. Nth table k (items_of self.now.added) i) }
    {
        let added = self.added.as_slice();
        // A loop over the items: `filter().nth(k)`, which counts in a walk round a walk, takes 1.7 times as long.
        let mut left = k;
        for (i, m) in added.iter().enumerate() {
            if m.table == table {
                if left == 0 {
                    return Some(i);
                }
                left -= 1;
            }
        }
        None
    }

    // The cell in a column of the row added to a table after k others.
    fn added_cell(&self, table: usize, k: usize, column: usize) -> Cell
        ensures { result ≡ slice_index_or (slice_index_or (added_rows table (width_of (S.Stock.tables self.now.below) table) (items_of self.now.added)) k []) column Null }
    {
        if column >= self.below.width(table) {
            return Cell::Null;
        }
        let added = self.added.as_slice();
        match self.nth(table, k) {
            None => Cell::Null,
            Some(i) => added[i].row[column],
        }
    }
}

impl<S: Stock> Stock for Movements<S> {
    ghost tables = { λ s. shown_by (S.Stock.tables s.below) s.added s.hidden };

    ghost lawful = { λ s. moved_lawful (items_of s.added) (items_of s.hidden) (S.Stock.tables s.below) (S.Stock.lawful s.below) };

    fn table_count(&self) -> usize {
        self.below.table_count()
    }

    fn width(&self, table: usize) -> usize {
        self.below.width(table)
    }

    fn row_count(&self, table: usize) -> usize {
        if table >= self.below.table_count() {
            return 0;
        }
        (self.kept(table) + self.additions(table)).min(MOST_ROWS)
    }

    fn cell(&self, table: usize, place: usize, column: usize) -> Cell {
        if table >= self.below.table_count() || place >= MOST_ROWS {
            return Cell::Null;
        }
        let n = self.kept(table);
        if place < n {
            self.below.cell(table, self.source(table, place), column)
        } else {
            self.added_cell(table, place - n, column)
        }
    }
}

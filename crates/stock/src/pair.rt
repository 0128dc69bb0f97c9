// Two stocks as one: the first's tables in front of the second's.
ghost use Rattle.std.specs.Prelude.{◌≡◌, slice_index_or};
ghost use Rattle.stock.specs.Tables.{paired, no_table};
ghost use Rattle.stock.specs.Pairs.{table_of};
ghost use Rattle.stock.specs.Tabled.{paired_lawful};

use crate::limits::MOST_TABLES;
use crate::stock::Stock;
use cells::cell::Cell;

// One of the two stocks, and a table's number there.
#[derive(Clone, Copy)]
pub(crate) enum Place {
    First(usize),
    Second(usize),
}

#[derive(Drop)]
pub struct Pair<A, B> {
    first: A,
    second: B,
}

impl<A, B> Pair<A, B> {
    pub fn of(first: A, second: B) -> Pair<A, B>
        ensures first { result.first ≡ first }
        ensures second { result.second ≡ second }
    {
        Pair { first, second }
    }
}

impl<A: Stock, B: Stock> Pair<A, B> {
    // Where a table stands, if it is shown.
    fn place(&self, table: usize) -> Option<Place>
        ensures { slice_index_or (paired (A.Stock.tables self.now.first) (B.Stock.tables self.now.second)) table no_table
            ≡ table_of (A.Stock.tables self.now.first) (B.Stock.tables self.now.second) result }
    {
        let n = self.first.table_count();
        if table >= MOST_TABLES {
            None
        } else if table < n {
            Some(Place::First(table))
        } else {
            Some(Place::Second(table - n))
        }
    }
}

impl<A: Stock, B: Stock> Stock for Pair<A, B> {
    ghost tables = { λ s. paired (A.Stock.tables s.first) (B.Stock.tables s.second) };

    ghost lawful = { λ s. paired_lawful (A.Stock.tables s.first) (B.Stock.tables s.second) (A.Stock.lawful s.first) (B.Stock.lawful s.second) };

    fn table_count(&self) -> usize {
        (self.first.table_count() + self.second.table_count()).min(MOST_TABLES)
    }

    fn width(&self, table: usize) -> usize {
        match self.place(table) {
            Some(Place::First(t)) => self.first.width(t),
            Some(Place::Second(t)) => self.second.width(t),
            None => 0,
        }
    }

    fn row_count(&self, table: usize) -> usize {
        match self.place(table) {
            Some(Place::First(t)) => self.first.row_count(t),
            Some(Place::Second(t)) => self.second.row_count(t),
            None => 0,
        }
    }

    fn cell(&self, table: usize, place: usize, column: usize) -> Cell {
        match self.place(table) {
            Some(Place::First(t)) => self.first.cell(t, place, column),
            Some(Place::Second(t)) => self.second.cell(t, place, column),
            None => Cell::Null,
        }
    }
}

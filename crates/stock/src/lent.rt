// A stock that is lent.
use crate::stock::Stock;
use cells::cell::Cell;

impl<'a, S: Stock> Stock for &'a S {
    ghost tables = { λ s. S.Stock.tables s.now };

    ghost lawful = { λ s. S.Stock.lawful s.now };

    fn table_count(&self) -> usize {
        (**self).table_count()
    }

    fn width(&self, table: usize) -> usize {
        (**self).width(table)
    }

    fn row_count(&self, table: usize) -> usize {
        (**self).row_count(table)
    }

    fn cell(&self, table: usize, place: usize, column: usize) -> Cell {
        (**self).cell(table, place, column)
    }
}

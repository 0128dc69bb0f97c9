// The movements: a row more, a row less, and all of them taken back.
ghost use Rattle.std.specs.Prelude.{◌≡◌, ◌+◌, Some, None, MatchResult};
ghost use Rattle.stock.specs.Tables.{width_of, rows_of};
ghost use Rattle.movements.specs.Moves.{add_cause, withdraw_cause, with_row, without_row};
ghost use Rattle.movements.specs.Shown.{items_of, shown, rows_remaining, Uncut, Put, Taken};

use crate::moved::{Added, Hidden};
use crate::movements::Movements;
use crate::rows::{fault, padded};
use cells::cell::Cell;
use stock::limits::MOST_ROWS;
use stock::refusal::Refusal;
use stock::stock::Stock;

impl<S: Stock> Movements<S> {
    // Puts a row at the end of a table and answers how many rows the table then shows.
    pub fn add(&mut self, table: usize, row: &[Cell]) -> Result<usize, Refusal>
        ensures shows { MatchResult result
            (λ n. (add_cause (shown S.Stock.tables self.old) self.old.added.count table row.now ≡ None)
            × (shown S.Stock.tables self.new ≡ with_row (shown S.Stock.tables self.old) table row.now)
            × (n ≡ rows_of (shown S.Stock.tables self.new) table)
            × (self.new.below ≡ self.old.below))
            (λ e. (add_cause (shown S.Stock.tables self.old) self.old.added.count table row.now ≡ Some e)
            × (self.new ≡ self.old)) }
        ensures parts { MatchResult result
            (λ _. Put table (width_of (S.Stock.tables self.old.below) table) row.now (items_of self.old.added) (items_of self.new.added)
            × (self.new.hidden ≡ self.old.hidden))
            (λ _. Unit {0}) }
        ensures uncut { Uncut S.Stock.tables self.old → Uncut S.Stock.tables self.new }
    {
        if table >= self.table_count() {
            return Err(Refusal::NotShown);
        }
        if let Some(k) = fault(row, self.width(table)) {
            return Err(Refusal::BadRow(k));
        }
        let n = self.row_count(table);
        if self.added.is_full() || n >= MOST_ROWS {
            return Err(Refusal::NoRoom);
        }
        self.added.push(Added {
            table,
            row: padded(row),
        });
        Ok(n + 1)
    }

    // Takes out the row shown at a place and answers how many rows the table then shows.
    pub fn withdraw(&mut self, table: usize, place: usize) -> Result<usize, Refusal>
        ensures cause { MatchResult result
            (λ n. (withdraw_cause (shown S.Stock.tables self.old) (rows_remaining S.Stock.tables self.old table) self.old.hidden.count table place ≡ None)
            × (n + 1 ≡ rows_of (shown S.Stock.tables self.old) table)
            × (self.new.below ≡ self.old.below))
            (λ e. (withdraw_cause (shown S.Stock.tables self.old) (rows_remaining S.Stock.tables self.old table) self.old.hidden.count table place ≡ Some e)
            × (self.new ≡ self.old)) }
        ensures shows { Uncut S.Stock.tables self.old → MatchResult result
            (λ n. (shown S.Stock.tables self.new ≡ without_row (shown S.Stock.tables self.old) table place)
            × (n ≡ rows_of (shown S.Stock.tables self.new) table))
            (λ _. Unit {0}) }
        ensures parts { MatchResult result
            (λ _. Taken table place (rows_remaining S.Stock.tables self.old table) (items_of self.old.added) (items_of self.old.hidden) (items_of self.new.added) (items_of self.new.hidden))
            (λ _. Unit {0}) }
        ensures uncut { Uncut S.Stock.tables self.old → Uncut S.Stock.tables self.new }
    {
        let n = self.row_count(table);
        if place >= n {
            return Err(Refusal::NotShown);
        }
        let kept = self.kept(table);
        if place < kept {
            if self.hidden.is_full() {
                return Err(Refusal::NoRoom);
            }
            self.hidden.push(Hidden { table, place });
            return Ok(n - 1);
        }
        let i = self.nth(table, place - kept).unwrap();
        self.added.remove(i);
        Ok(n - 1)
    }

    // Shows the rows below again.
    pub fn clear(&mut self)
        ensures same { self.new.below ≡ self.old.below }
        ensures adds { self.new.added.count ≡ 0 }
        ensures hides { self.new.hidden.count ≡ 0 }
        ensures shows { shown S.Stock.tables self.new ≡ S.Stock.tables self.old.below }
        ensures uncut { Uncut S.Stock.tables self.new }
    {
        self.added.clear();
        self.hidden.clear();
    }
}

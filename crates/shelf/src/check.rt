// The check that comes before a shelf is made.
ghost use Rattle.std.specs.Prelude.{◌≡◌, ◌*◌, true, false, length, drop, is_ok, MatchOption};
ghost use Rattle.shelf.specs.Cut.{fault, fits, check_answer, shelved, laid_out};

use crate::shelf::Shelf;
use cells::cell::Cell;
use stock::limits::{MOST_COLUMNS, MOST_ROWS, MOST_TABLES};
use stock::refusal::Refusal;

// The cells after a table of this width and row count, where the cells begin with one.
fn after_table(cells: &[Cell], width: usize, rows: usize) -> Option<&[Cell]>
    ensures { MatchOption result (fits (width, rows) cells.now ≡ false)
        (λ rest. (fits (width, rows) cells.now ≡ true) × (rest.now ≡ drop (rows * width) cells.now)) }
{
    if width < 1 || width > MOST_COLUMNS || rows > MOST_ROWS {
        return None;
    }
    let (table, rest) = cells.split_at_checked(rows * width)?;
    table.iter().all(|cell| cell.is_stored()).then_some(rest)
}

impl<'a> Shelf<'a> {
    // How many tables the lent parts make, or the first table at fault. The tables of parts that pass hold just the lent cells.
    pub fn check(cells: &[Cell], pairs: &[(usize, usize)]) -> Result<usize, Refusal>
        ensures value { result ≡ check_answer (fault pairs.now cells.now) (length pairs.now) }
        ensures whole { is_ok result ≡ true → laid_out (shelved pairs.now cells.now) ≡ cells.now }
    {
        let mut rest = cells;
        for (i, &(width, rows)) in pairs.iter().enumerate() {
            if i >= MOST_TABLES {
                return Err(Refusal::BadTable(MOST_TABLES));
            }
            rest = after_table(rest, width, rows).ok_or(Refusal::BadTable(i))?;
        }
        if !rest.is_empty() {
            return Err(Refusal::BadTable(pairs.len().saturating_sub(1)));
        }
        Ok(pairs.len())
    }

    // A shelf of lent parts; it has no tables where the check fails.
    pub fn of(cells: &'a [Cell], pairs: &'a [(usize, usize)]) -> Shelf<'a>
        ensures cells { result.cells.now ≡ cells.now }
        ensures pairs { result.pairs.now ≡ pairs.now }
    {
        let shown = &pairs[..Shelf::check(cells, pairs).unwrap_or(0)];
        Shelf {
            cells,
            pairs,
            shown,
        }
    }
}

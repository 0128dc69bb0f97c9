// The check over a stock, and what an accepted query tells.
ghost use Rattle.std.specs.Prelude.{◌≡◌, ℕ, ◌-◌, ◌<◌, ◌≤◌, [], length, take, MatchResult, slice_index};
ghost use Rattle.stock.specs.Tables.{widths};
ghost use Rattle.lines.specs.Trees.{width};
ghost use Rattle.lines.specs.Lines.{answer};
ghost use Rattle.lines.specs.Shapes.{line_at, width_at};
ghost use Rattle.lines.specs.Marks.{Sound};
ghost use Rattle.query.specs.Verdicts.{Accepted, Refused};
ghost use Rattle.query.specs.Stored.{StoredLaw};
ghost use Rattle.query.specs.Queries.{lines_of, widths_of};

use crate::draft::Draft;
use crate::query::Query;
use lines::line::Line;
use stock::refusal::Refusal;
use stock::stock::Stock;

// At most 32 lines, followed by Units.
fn copy_lines(lines: &[Line]) -> [Line; 32]
    requires { length lines.now ≤ 32 }
    ensures long { length result ≡ 32 }
    ensures same { take (length lines.now) result ≡ lines.now }
{
    let mut all = [Line::Unit; 32];
    all[..lines.len()].copy_from_slice(lines);
    all
}

impl Query {
    // Checks lines against the tables of a stock: the query of these lines where there is no cause to refuse them,
    // and else the least cause.
    pub fn check<S: Stock>(lines: &[Line], stock: &S) -> Result<Query, Refusal>
        ensures { MatchResult result (λ q. (lines_of q ≡ lines.now) × (widths_of q ≡ widths (S.Stock.tables stock.now)) × Accepted lines.now (widths (S.Stock.tables stock.now))) (λ e. Refused lines.now (widths (S.Stock.tables stock.now)) e) }
    {
        let draft = Draft::new(lines, stock)?;
        let widths = draft.check()?;
        Ok(Query {
            lines: copy_lines(lines),
            size: lines.len(),
            tables: draft.tables,
            widths,
        })
    }

    // How many lines there are.
    pub fn size(&self) -> usize
        ensures { result ≡ length (lines_of self.now) }
    {
        self.lines().len()
    }

    // The number of the last line. What the check says of the whole query stands here.
    fn last(&self) -> usize
        ensures value { result ≡ length (lines_of self.now) - 1 }
        ensures sound { Sound (widths_of self.now) [] (answer (lines_of self.now)) }
        ensures stored { StoredLaw (widths_of self.now) (answer (lines_of self.now)) }
    {
        self.size() - 1
    }

    // How many columns the answer has. Its tree is sound, and over every stock with these widths it sums stored numbers only.
    pub fn width(&self) -> usize
        ensures value { result ≡ width (widths_of self.now) (answer (lines_of self.now)) }
        ensures sound { Sound (widths_of self.now) [] (answer (lines_of self.now)) }
        ensures stored { StoredLaw (widths_of self.now) (answer (lines_of self.now)) }
    {
        self.line_width(self.last())
    }

    // Line i, or a Unit where there is none.
    pub fn line(&self, i: usize) -> Line
        ensures { result ≡ line_at (lines_of self.now) i }
    {
        self.lines().get(i).copied().unwrap_or_default()
    }

    // How many columns of its own line i has; 1 where there is no such line, as a Unit has.
    pub fn line_width(&self, i: usize) -> usize
        ensures { result ≡ width_at (lines_of self.now) (widths_of self.now) i }
    {
        self.widths.each.get(i).copied().unwrap_or(1)
    }

    // Its lines.
    pub fn lines(&self) -> &[Line]
        ensures { result.now ≡ lines_of self.now }
    {
        &self.lines[..self.size]
    }

    // The widths of the tables that it was checked against.
    pub fn table_widths(&self) -> &[usize]
        ensures { result.now ≡ widths_of self.now }
    {
        &self.tables
    }

    // How many columns of its own each line has.
    pub fn line_widths(&self) -> &[usize]
        ensures count { length result.now ≡ length (lines_of self.now) }
        ensures each { (j : ℕ) → j < length (lines_of self.now) → slice_index result.now j ≡ width_at (lines_of self.now) (widths_of self.now) j }
    {
        &self.widths.each
    }

    // How many tables the stock had.
    pub fn table_count(&self) -> usize
        ensures { result ≡ length (widths_of self.now) }
    {
        self.tables.len()
    }

    // The width of a table, 0 where there is none.
    pub fn table_width(&self, table: usize) -> usize
        ensures { result ≡ slice_index (widths_of self.now) table }
    {
        self.tables.get(table).copied().unwrap_or(0)
    }
}

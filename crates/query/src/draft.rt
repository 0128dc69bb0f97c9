// Lines to be checked, and the widths of the tables that they are checked against.
ghost use Rattle.std.specs.Prelude.{◌≡◌, ◌≤◌, length, MatchResult, slice_index};
ghost use Rattle.stock.specs.Tables.{widths};
ghost use Rattle.lines.specs.Shapes.{line_at};
ghost use Rattle.query.specs.Sizes.{Sized};
ghost use Rattle.query.specs.Verdicts.{Refused};

use arrayvec::ArrayVec;
use lines::line::Line;
use stock::refusal::Refusal;
use stock::stock::Stock;

// The lines are lent: they are copied once there is a query of them.
#[derive(Drop)]
pub(crate) struct Draft<'a> {
    pub(crate) lines: &'a [Line],
    pub(crate) tables: ArrayVec<usize, 16>,
    ghost some: { 1 ≤ length lines.now },
    ghost few: { length lines.now ≤ 32 },
    ghost sized: { Sized tables.items },
}

// The widths of a stock's tables.
fn table_widths<S: Stock>(stock: &S) -> ArrayVec<usize, 16>
    ensures same { result.items ≡ widths (S.Stock.tables stock.now) }
    ensures sized { Sized (widths (S.Stock.tables stock.now)) }
{
    let mut all = ArrayVec::new();
    for table in 0..stock.table_count() {
        all.push(stock.width(table));
    }
    all
}

impl<'a> Draft<'a> {
    // These lines, of which there must be 1 to 32, over the tables of a stock.
    pub(crate) fn new<S: Stock>(lines: &'a [Line], stock: &S) -> Result<Draft<'a>, Refusal>
        ensures { MatchResult result (λ d. (d.lines.now ≡ lines.now) × (d.tables.items ≡ widths (S.Stock.tables stock.now))) (λ e. Refused lines.now (widths (S.Stock.tables stock.now)) e) }
    {
        if lines.is_empty() || lines.len() > 32 {
            return Err(Refusal::LineCount(lines.len()));
        }
        Ok(Draft {
            lines,
            tables: table_widths(stock),
        })
    }

    // Line i, or a Unit where there is none.
    pub(crate) fn line(&self, i: usize) -> Line
        ensures { result ≡ line_at self.now.lines.now i }
    {
        self.lines.get(i).copied().unwrap_or_default()
    }

    // The width of a table, 0 where there is none.
    pub(crate) fn table_width(&self, table: usize) -> usize
        ensures { result ≡ slice_index self.now.tables.items table }
    {
        self.tables.get(table).copied().unwrap_or(0)
    }
}

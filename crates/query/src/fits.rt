// Tables, widths, counts and constants: the refusals 4 and 5.
ghost use Rattle.std.specs.Prelude.{◌≡◌, ◌+◌, ◌≤◌, false, ◌&&◌, MatchResult, nat_le};
ghost use Rattle.lines.specs.Shapes.{line_at, Ordered};
ghost use Rattle.query.specs.Fits.{unknown_table, stored_side, misfit, width_by};
ghost use Rattle.query.specs.Verdicts.{Passed, Refused};
ghost use Rattle.query.specs.Working.{listed, Measured};

use crate::draft::Draft;
use crate::widths::Widths;
use cells::cell::Cell;
use lines::line::{Line, Side};
use stock::refusal::Refusal;

// Whether a row of w columns has n first and m last ones, at least one in all.
fn keeps(n: usize, m: usize, w: usize) -> bool
    ensures { result ≡ (nat_le 1 (n + m) && nat_le (n + m) w) }
{
    n <= w && m <= w - n && (n > 0 || m > 0)
}

fn is_stored(side: Side) -> bool
    ensures { result ≡ stored_side side }
{
    match side {
        Side::Column(_) => true,
        Side::Constant(z) => Cell::Number(z).is_stored(),
    }
}

fn is_misfit(line: Line, widths: &Widths) -> bool
    ensures { result ≡ misfit (listed widths.now.each.items) line }
{
    match line {
        Line::Keep { first, last, rows } => !keeps(first, last, widths.at(rows)),
        Line::Extend { value, .. } => !is_stored(value),
        Line::Pad { nulls, .. } => !(1..=31).contains(&nulls),
        Line::Match {
            shared,
            left,
            right,
        }
        | Line::SemiMatch {
            shared,
            left,
            right,
        }
        | Line::AntiMatch {
            shared,
            left,
            right,
        } => !(shared <= widths.at(left) && shared <= widths.at(right)),
        Line::Union { left, right } | Line::Diff { left, right } => {
            widths.at(left) != widths.at(right)
        }
        Line::Group { keys, rows, .. } => !(1..=widths.at(rows)).contains(&keys),
        Line::ApplySome { right, .. } | Line::ApplyAll { right, .. } => widths.at(right) != 1,
        Line::Compare { left, right, .. } => !(is_stored(left) && is_stored(right)),
        _ => false,
    }
}

impl Draft<'_> {
    // Whether line i names a table that the stock lacks.
    pub(crate) fn is_unknown(&self, i: usize) -> bool
        ensures { result ≡ unknown_table self.now.tables.items (line_at self.now.lines.now i) }
    {
        matches!(self.line(i), Line::Table { table } if table >= self.tables.len())
    }

    fn width_of(&self, line: Line, widths: &Widths) -> usize
        requires { misfit (listed widths.now.each.items) line ≡ false }
        ensures { result ≡ width_by self.now.tables.items (listed widths.now.each.items) line }
    {
        match line {
            Line::Table { table } => self.table_width(table),
            Line::Keep { first, last, .. } => first + last,
            Line::Pad { nulls, rows } => widths.at(rows) + nulls,
            Line::Match {
                shared,
                left,
                right,
            } => widths.at(left) + widths.at(right).saturating_sub(shared),
            Line::Group { keys, .. } => keys + 1,
            Line::ApplyCross { left, right } | Line::ApplyOuter { left, right } => {
                widths.at(left) + widths.at(right)
            }
            Line::Select { rows, .. } | Line::Distinct { rows } => widths.at(rows),
            Line::SemiMatch { left, .. }
            | Line::AntiMatch { left, .. }
            | Line::Union { left, .. }
            | Line::Diff { left, .. }
            | Line::ApplySemi { left, .. }
            | Line::ApplyAnti { left, .. } => widths.at(left),
            Line::Extend { rows, .. } | Line::ExtendTruth { rows, .. } => widths.at(rows) + 1,
            Line::ApplySome { left, .. } | Line::ApplyAll { left, .. } => widths.at(left) + 1,
            _ => 1,
        }
    }

    // The widths of all lines, or the first line whose counts, widths or constants are out of their bounds.
    pub(crate) fn measure(&self) -> Result<Widths, Refusal>
        requires { Passed self.now.lines.now self.now.tables.items 4 }
        ensures { MatchResult result (λ w. Measured self.now.lines.now self.now.tables.items w.each.items) (λ e. Refused self.now.lines.now self.now.tables.items e) }
    {
        let mut widths = Widths::new();
        for (i, line) in self.lines.iter().enumerate() {
            if is_misfit(*line, &widths) {
                return Err(Refusal::Misfit(i));
            }
            widths.push(self.width_of(*line, &widths));
        }
        Ok(widths)
    }
}

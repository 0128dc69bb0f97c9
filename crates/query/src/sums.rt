// Sums over columns that come from a sum: the refusal 8.
ghost use Rattle.std.specs.Prelude.{◌≡◌, ℕ, ◌-◌, ◌<◌, ◌≤◌, true, false, ◌++◌, length, take, drop, MatchResult, slice_index_or};
ghost use Rattle.lines.specs.Shapes.{shape_of, line_at, tree_at};
ghost use Rattle.lines.specs.Marks.{fold_from, summed, mark_of, own};
ghost use Rattle.query.specs.Contexts.{widens, first_of};
ghost use Rattle.query.specs.Sums.{longer, marks_at, resummed};
ghost use Rattle.query.specs.Verdicts.{Passed, Accepted, Refused};
ghost use Rattle.query.specs.Marking.{own_by, Placed, Standing, marked};

use crate::contexts::hand_down;
use crate::draft::Draft;
use crate::marks::Marks;
use lines::line::{Aggregate, Line, Shape, Side};
use stock::refusal::Refusal;

// The mark of a column of the long row.
fn long_at(context: &Marks, row: &Marks, k: usize) -> bool
    ensures { result ≡ slice_index_or (context.now ++ row.now) k false }
{
    if k < context.len() {
        context.at(k)
    } else {
        row.at(k - context.len())
    }
}

fn side_mark(side: Side, context: &Marks, row: &Marks) -> bool
    ensures { result ≡ mark_of side (context.now ++ row.now) }
{
    match side {
        Side::Column(k) => long_at(context, row, k),
        Side::Constant(_) => false,
    }
}

fn fold_mark(aggregate: Aggregate, mark: bool) -> bool
    ensures { result ≡ fold_from aggregate mark }
{
    match aggregate {
        Aggregate::Rows | Aggregate::Filled => false,
        Aggregate::Sum => true,
        Aggregate::Least | Aggregate::Greatest => mark,
    }
}

fn kept(row: &Marks, first: usize, last: usize) -> Marks
    requires { length (take first row.now ++ drop (length row.now - last) row.now) ≤ 32 }
    ensures { result ≡ take first row.now ++ drop (length row.now - last) row.now }
{
    row.start(first).then(row, row.len().saturating_sub(last))
}

fn is_summed(aggregate: Aggregate, mark: bool) -> bool
    ensures { result ≡ summed aggregate mark }
{
    matches!(aggregate, Aggregate::Sum) && mark
}

impl Draft<'_> {
    // The marks of a line's own columns, by those of its context and of its operands' own columns.
    fn marks_by(&self, line: Line, context: &Marks, first: &Marks, second: &Marks) -> Marks
        requires { length (own_by self.now.tables.items context.now first.now second.now line) ≤ 32 }
        ensures { result ≡ own_by self.now.tables.items context.now first.now second.now line }
    {
        match line {
            Line::Unit => Marks::plain(1),
            Line::Table { table } => Marks::plain(self.table_width(table)),
            Line::Keep {
                first: n,
                last: m,
                ..
            } => kept(first, n, m),
            Line::Extend { value, .. } => first.push(side_mark(value, context, first)),
            Line::ExtendTruth { .. } | Line::ApplySome { .. } | Line::ApplyAll { .. } => {
                first.push(false)
            }
            Line::Pad { nulls, .. } => first.then(&Marks::plain(nulls), 0),
            Line::Match { shared, .. } => first.then(second, shared),
            Line::Union { .. } => first.either(second),
            Line::Group {
                keys,
                aggregate,
                column,
                ..
            } => first
                .start(keys)
                .push(fold_mark(aggregate, long_at(context, first, column))),
            Line::Total {
                aggregate,
                column,
                ..
            } => Marks::plain(0).push(fold_mark(aggregate, long_at(context, first, column))),
            Line::ApplyCross { .. } | Line::ApplyOuter { .. } => first.then(second, 0),
            _ => *first,
        }
    }

    // The marks of line i's own columns in a context with given marks. Each line below it is looked at once.
    fn own_marks(&self, i: usize, context: &Marks) -> Marks
        requires { Standing self.now.lines.now self.now.tables.items i context.now }
        ensures { result ≡ own self.now.tables.items context.now (tree_at self.now.lines.now i) }
    {
        let line = self.line(i);
        let none = Marks::plain(0);
        match line.shape() {
            Shape::One(a) | Shape::Tested(a, _) => {
                let first = self.own_marks(a, context);
                self.marks_by(line, context, &first, &none)
            }
            Shape::Two(a, b) => {
                let first = self.own_marks(a, context);
                let second = self.own_marks(b, context);
                self.marks_by(line, context, &first, &second)
            }
            Shape::Inner(a, b) => {
                let first = self.own_marks(a, context);
                let inner = context.then(&first, 0);
                let second = self.own_marks(b, &inner);
                self.marks_by(line, context, &first, &second)
            }
            _ => self.marks_by(line, context, &none, &none),
        }
    }

    // The marks of line a's long row in a context with given marks.
    fn longer_marks(&self, a: usize, context: &Marks) -> Marks
        requires { Standing self.now.lines.now self.now.tables.items a context.now }
        ensures { result ≡ longer self.now.lines.now self.now.tables.items a context.now }
    {
        let row = self.own_marks(a, context);
        context.then(&row, 0)
    }

    // What line i's operand that is read once for each row of the first is read under.
    fn inner_marks(&self, i: usize, context: &Marks) -> Marks
        requires { Placed self.now.lines.now self.now.tables.items i context.now }
        ensures { (k : ℕ) → widens (shape_of (line_at self.now.lines.now i)) k ≡ true → result ≡ longer self.now.lines.now self.now.tables.items (first_of (shape_of (line_at self.now.lines.now i))) context.now }
    {
        match self.line(i).shape() {
            Shape::Tested(a, _) | Shape::Inner(a, _) => self.longer_marks(a, context),
            _ => *context,
        }
    }

    // The marks of every line's context, with a place for each line that there may be.
    fn context_marks(&self) -> [Marks; 32]
        requires { Passed self.now.lines.now self.now.tables.items 7 }
        ensures long { length result ≡ 32 }
        ensures is { (i : ℕ) → i < 32 → marked result i ≡ marks_at self.now.lines.now self.now.tables.items i }
    {
        let mut contexts = [Marks::plain(0); 32];
        // As with the widths of contexts; what is handed down differs in all but the order.
        for j in (0..self.lines.len()).rev() {
            let x = contexts[j];
            let y = self.inner_marks(j, &x);
            hand_down(self.line(j).shape(), x, y, &mut contexts);
        }
        contexts
    }

    // Whether line i sums a column that comes from a sum.
    fn is_resummed(&self, i: usize, contexts: &[Marks; 32]) -> bool
        requires passed { Passed self.now.lines.now self.now.tables.items 7 }
        requires within { i < length self.now.lines.now }
        requires marks { (k : ℕ) → k < 32 → marked contexts.now k ≡ marks_at self.now.lines.now self.now.tables.items k }
        ensures { result ≡ resummed self.now.lines.now self.now.tables.items i }
    {
        let context = contexts[i];
        match self.line(i) {
            Line::Group {
                aggregate,
                column,
                rows,
                ..
            }
            | Line::Total {
                aggregate,
                column,
                rows,
            } => is_summed(aggregate, self.longer_marks(rows, &context).at(column)),
            _ => false,
        }
    }

    // Refuses a line that sums a column which comes from a sum.
    pub(crate) fn check_sums(&self) -> Result<(), Refusal>
        requires { Passed self.now.lines.now self.now.tables.items 7 }
        ensures { MatchResult result (λ _. Accepted self.now.lines.now self.now.tables.items) (λ e. Refused self.now.lines.now self.now.tables.items e) }
    {
        let contexts = self.context_marks();
        self.refuse_first(|i| self.is_resummed(i, &contexts), Refusal::SumOfSum)
    }
}

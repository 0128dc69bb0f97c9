// Contexts and long rows: the refusals 6 and 7.
ghost use Rattle.std.specs.Prelude.{◌≡◌, ℕ, ◌<◌, ◌≤◌, length, MatchResult, slice_index_or, slice_set};
ghost use Rattle.query.specs.Contexts.{first_of, handed, read_under, too_long, beyond, outside};
ghost use Rattle.query.specs.Verdicts.{Passed, Refused};
ghost use Rattle.query.specs.Working.{listed, Modest, wider_by, Measured};

use crate::draft::Draft;
use crate::widths::Widths;
use lines::line::{Line, Shape, Side};
use stock::refusal::Refusal;

// Past the end nothing is written. By an index: after a write through a slice's `get_mut` a proof knows no element.
fn put<T: Copy + Drop>(contexts: &mut [T], i: usize, x: T)
    ensures { contexts.new ≡ slice_set contexts.old i x }
{
    if i < contexts.len() {
        contexts[i] = x;
    }
}

pub(crate) fn first_of(shape: Shape) -> usize
    ensures { result ≡ first_of shape }
{
    match shape {
        Shape::Leaf => 0,
        Shape::One(a) | Shape::Two(a, _) | Shape::Tested(a, _) | Shape::Inner(a, _) => a,
        Shape::Part(p) | Shape::Parts(p, _) => p,
    }
}

// Hands x down to a line's operands, and y to one that is read once for each row of the first.
pub(crate) fn hand_down<T: Copy + Drop>(shape: Shape, x: T, y: T, contexts: &mut [T])
    ensures { (z : T) (i : ℕ) → i < length contexts.old → slice_index_or contexts.new i z ≡ handed shape x y (slice_index_or contexts.old i z) i }
{
    match shape {
        Shape::Leaf => {}
        Shape::One(a) | Shape::Part(a) => put(contexts, a, x),
        Shape::Two(a, b) | Shape::Parts(a, b) => {
            put(contexts, a, x);
            put(contexts, b, x);
        }
        Shape::Tested(a, b) | Shape::Inner(a, b) => {
            put(contexts, a, x);
            put(contexts, b, y);
        }
    }
}

fn is_too_long(context: usize, width: usize, line: Line) -> bool
    requires { (width ≤ 137438953472) × (context ≤ 4398046511104) }
    ensures { result ≡ too_long context width line }
{
    !line.is_condition() && context + width > 32
}

fn is_beyond(context: usize, side: Side) -> bool
    ensures { result ≡ beyond context side }
{
    matches!(side, Side::Column(k) if k >= context)
}

fn is_outside(context: usize, widths: &Widths, line: Line) -> bool
    requires { context ≤ 4398046511104 }
    ensures { result ≡ outside context (listed widths.now.each.items) line }
{
    match line {
        Line::Extend { rows, value } => is_beyond(context + widths.at(rows), value),
        Line::Group { column, rows, .. } | Line::Total { column, rows, .. } => {
            column >= context + widths.at(rows)
        }
        Line::ApplySome { column, left, .. } | Line::ApplyAll { column, left, .. } => {
            column >= context + widths.at(left)
        }
        Line::Compare { left, right, .. } => is_beyond(context, left) || is_beyond(context, right),
        Line::IsNull { column } => column >= context,
        _ => false,
    }
}

impl Draft<'_> {
    // The widths of all lines' contexts, with a place for each line that there may be.
    fn contexts(&self, widths: &Widths) -> [usize; 32]
        ensures is { (i : ℕ) → i < 32 → listed result i ≡ read_under (wider_by widths.now.each.items) 0 0 self.now.lines.now i }
        ensures modest { Modest result }
    {
        let mut contexts = [0; 32];
        // A line's own context is read while those of its operands, anywhere below, are written.
        for j in (0..self.lines.len()).rev() {
            let shape = self.line(j).shape();
            let x = contexts[j];
            let y = x + widths.at(first_of(shape));
            hand_down(shape, x, y, &mut contexts);
        }
        contexts
    }

    // Refuses a line whose long row has over 32 columns, or that names a column outside it.
    pub(crate) fn check_columns(&self, widths: &Widths) -> Result<(), Refusal>
        requires passed { Passed self.now.lines.now self.now.tables.items 4 }
        requires measured { Measured self.now.lines.now self.now.tables.items widths.now.each.items }
        ensures { MatchResult result (λ _. Passed self.now.lines.now self.now.tables.items 7) (λ e. Refused self.now.lines.now self.now.tables.items e) }
    {
        let contexts = self.contexts(widths);
        self.refuse_first(
            |i| is_too_long(contexts[i], widths.at(i), self.line(i)),
            Refusal::LongRow,
        )?;
        self.refuse_first(
            |i| is_outside(contexts[i], widths, self.line(i)),
            Refusal::UnknownColumn,
        )
    }
}

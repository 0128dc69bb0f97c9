// How lines read one another: the refusals 2 and 3.
ghost use Rattle.std.specs.Prelude.{◌≡◌, ◌<◌, ◌≤◌, length};
ghost use Rattle.query.specs.Reads.{rows_below, condition_below, well_read, misread, times, times_in, isolated};

use crate::draft::Draft;
use lines::line::Shape;

// How often an operand of the shape is line i.
fn times(shape: Shape, i: usize) -> usize
    ensures value { result ≡ times shape i }
    ensures upper_bound { result ≤ 2 }
{
    match shape {
        Shape::Leaf => 0,
        Shape::One(a) | Shape::Part(a) => usize::from(a == i),
        Shape::Two(a, b) | Shape::Tested(a, b) | Shape::Inner(a, b) | Shape::Parts(a, b) => {
            usize::from(a == i) + usize::from(b == i)
        }
    }
}

impl Draft<'_> {
    // Whether line a is lower than line i and has rows; and whether it is a condition. A flag for the one or the other would be
    // no plainer.
    fn rows_below(&self, i: usize, a: usize) -> bool
        ensures { result ≡ rows_below self.now.lines.now i a }
    {
        a < i && !self.line(a).is_condition()
    }

    fn condition_below(&self, i: usize, a: usize) -> bool
        ensures { result ≡ condition_below self.now.lines.now i a }
    {
        a < i && self.line(a).is_condition()
    }

    fn well_read(&self, i: usize, shape: Shape) -> bool
        ensures { result ≡ well_read self.now.lines.now i shape }
    {
        match shape {
            Shape::Leaf => true,
            Shape::One(a) => self.rows_below(i, a),
            Shape::Two(a, b) | Shape::Inner(a, b) => {
                self.rows_below(i, a) && self.rows_below(i, b)
            }
            Shape::Tested(a, q) => self.rows_below(i, a) && self.condition_below(i, q),
            Shape::Part(p) => self.condition_below(i, p),
            Shape::Parts(p, q) => self.condition_below(i, p) && self.condition_below(i, q),
        }
    }

    // Whether line i has an operand that is not lower, or of the wrong kind.
    pub(crate) fn is_misread(&self, i: usize) -> bool
        ensures { result ≡ misread self.now.lines.now i }
    {
        !self.well_read(i, self.line(i).shape())
    }

    fn times_in(&self, i: usize) -> usize
        ensures { result ≡ times_in self.now.lines.now i }
    {
        self.lines.iter().map(|line| times(line.shape(), i)).sum()
    }

    // Whether line i is not read exactly once, or is the last and a condition.
    pub(crate) fn is_isolated(&self, i: usize) -> bool
        requires { i < length self.now.lines.now }
        ensures { result ≡ isolated self.now.lines.now i }
    {
        if i + 1 == self.lines.len() {
            self.line(i).is_condition()
        } else {
            self.times_in(i) != 1
        }
    }
}

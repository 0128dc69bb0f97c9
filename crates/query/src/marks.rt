// A mark for each of at most 32 columns of a row: whether it comes from a sum.
ghost use Rattle.std.specs.Prelude.{◌≡◌, ◌+◌, ◌≤◌, false, [], ◌∷◌, ◌++◌, length, take, drop, replicate, slice_index_or};
ghost use Rattle.lines.specs.Marks.{either_mark};

use std::marker::Model;

// A context's marks go to each operand of its line, so they are copied, which no `ArrayVec` can be without an error.
// Those past the count are false, so that a contract sees all that is copied.
#[derive(Clone, Copy)]
pub(crate) struct Marks {
    columns: [bool; 32],
    count: usize,
}

impl Model for Marks {
    ghost use Rattle.std.specs.Prelude.{Bool, List, take};

    ghost Value = { List Bool };

    ghost use Rattle.query.specs.Inside.{Blank, inside, inside_view};

    ghost view = { λ m. take m.count m.columns };

    ghost invariant = { λ m. Blank m.columns m.count };

    ghost inverse = { inside };

    ghost inverse_ok = { inside_view };
}

impl Marks {
    // n columns that come from no sum.
    pub(crate) fn plain(n: usize) -> Marks
        requires { n ≤ 32 }
        ensures { result ≡ replicate n false }
    {
        Marks {
            columns: [false; 32],
            count: n,
        }
    }

    pub(crate) fn as_slice(&self) -> &[bool]
        ensures value { result.now ≡ self.now }
        ensures few { length result.now ≤ 32 }
    {
        &self.columns[..self.count]
    }

    pub(crate) fn len(&self) -> usize
        ensures { result ≡ length self.now }
    {
        self.count
    }

    pub(crate) fn at(&self, k: usize) -> bool
        ensures { result ≡ slice_index_or self.now k false }
    {
        self.as_slice().get(k).copied().unwrap_or(false)
    }

    // One column more.
    pub(crate) fn push(mut self, mark: bool) -> Marks
        requires { length self + 1 ≤ 32 }
        ensures { result ≡ self ++ (mark ∷ []) }
    {
        self.columns[self.count] = mark;
        self.count += 1;
        self
    }

    // The first n columns.
    pub(crate) fn start(mut self, n: usize) -> Marks
        ensures { result ≡ take n self }
    {
        if n < self.count {
            self.columns[n..].fill(false);
            self.count = n;
        }
        self
    }

    // Another row's columns from a place on after these.
    pub(crate) fn then(self, other: &Marks, from: usize) -> Marks
        requires { length (self ++ drop from other.now) ≤ 32 }
        ensures { result ≡ self ++ drop from other.now }
    {
        let mut all = self;
        for k in from..other.len() {
            all = all.push(other.at(k));
        }
        all
    }

    // Marked here or there.
    pub(crate) fn either(&self, other: &Marks) -> Marks
        ensures { result ≡ either_mark self.now other.now }
    {
        let mut all = Marks::plain(0);
        for (k, mark) in self.as_slice().iter().enumerate() {
            all = all.push(*mark || other.at(k));
        }
        all
    }
}

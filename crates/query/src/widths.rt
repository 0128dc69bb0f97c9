// The widths of the first lines of a draft.
ghost use Rattle.std.specs.Prelude.{◌≡◌, ◌<◌, ◌≤◌, [], ◌∷◌, ◌++◌, length};
ghost use Rattle.query.specs.Working.{listed, Small};

use arrayvec::ArrayVec;

// A line's width is at most the sum of two lower lines' widths, so that sums of widths stay small.
#[derive(Drop)]
pub(crate) struct Widths {
    pub(crate) each: ArrayVec<usize, 32>,
    ghost small: { Small each.items },
}

impl Widths {
    pub(crate) fn new() -> Widths
        ensures { result.each.items ≡ [] }
    {
        Widths {
            each: ArrayVec::new(),
        }
    }

    // The width of a line, 0 where none is known.
    pub(crate) fn at(&self, line: usize) -> usize
        ensures value { result ≡ listed self.now.each.items line }
        ensures small { result ≤ 137438953472 }
    {
        self.each.get(line).copied().unwrap_or(0)
    }

    pub(crate) fn push(&mut self, width: usize)
        requires room { length self.old.each.items < 32 }
        requires small { width ≤ 137438953472 }
        ensures { self.new.each.items ≡ self.old.each.items ++ width ∷ [] }
    {
        self.each.push(width);
    }
}

// A list of at most N items whose room is there from the making. No `ArrayVec`: its `clear` writes a blank over each item
// where this one sets a count to 0, and a contract sees of an ArrayVec that is given no bound on its items.
ghost use Rattle.std.specs.Prelude.{◌≡◌, ◌+◌, ◌<◌, ◌≤◌, ◌==◌, [], ◌∷◌, ◌++◌, length, take};
ghost use Rattle.std.specs.List.{remove};

#[derive(Drop)]
pub struct Bounded<T, const N: usize> {
    pub(crate) items: [T; N],
    pub(crate) count: usize,
    ghost small: { count ≤ N },
    ghost long: { length items ≡ N },
}

impl<T: Copy, const N: usize> Bounded<T, N> {
    // No items; the room is filled with any one.
    pub(crate) fn none(any: T) -> Bounded<T, N>
        ensures { result.count ≡ 0 }
    {
        Bounded {
            items: [any; N],
            count: 0,
        }
    }

    pub(crate) fn as_slice(&self) -> &[T]
        ensures { result.now ≡ take self.now.count self.now.items }
    {
        &self.items[..self.count]
    }

    pub(crate) fn is_full(&self) -> bool
        ensures { result ≡ (self.now.count == N) }
    {
        self.count == N
    }

    pub(crate) fn push(&mut self, x: T)
        requires { self.old.count < N }
        ensures items { take self.new.count self.new.items ≡ take self.old.count self.old.items ++ x ∷ [] }
        ensures len { self.new.count ≡ self.old.count + 1 }
    {
        self.items[self.count] = x;
        self.count += 1;
    }

    // Inlined, its `copy_within` burdens the search before it in `withdraw` with counters: 16 instructions a row for 9.
    #[inline(never)]
    pub(crate) fn remove(&mut self, i: usize)
        requires { i < self.old.count }
        ensures items { take self.new.count self.new.items ≡ remove (take self.old.count self.old.items) i }
        ensures len { self.new.count + 1 ≡ self.old.count }
    {
        self.items.copy_within(i + 1..self.count, i);
        self.count -= 1;
    }

    pub(crate) fn clear(&mut self)
        ensures { self.new.count ≡ 0 }
    {
        self.count = 0;
    }
}

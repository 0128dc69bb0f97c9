// A flat plan.
ghost use Rattle.std.specs.Prelude.{◌≡◌, ◌≤◌, length, take};
ghost use Rattle.query.specs.Sizes.{Sized};
ghost use Rattle.unnest.specs.Plans.{WellFormed};

use arrayvec::ArrayVec;
use lines::line::Line;

// Lines that an evaluator runs in their order with no check, and the widths of the tables that they were made for.
#[derive(Drop)]
pub struct FlatPlan {
    pub(crate) lines: [Line; 512],
    pub(crate) count: usize,
    pub(crate) widths: ArrayVec<usize, 16>,
    ghost full: { length lines ≡ 512 },
    ghost few: { count ≤ 512 },
    ghost sized: { Sized widths.items },
    ghost formed: { ∥ WellFormed widths.items (take count lines) ∥₁ },
}

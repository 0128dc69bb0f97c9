// Room for the lines of a flat plan.
ghost use Rattle.std.specs.Prelude.{◌≡◌, ◌≤◌, length};

use lines::line::Line;

// The first lines stand, the others are unused. An ArrayVec of 512 lines would be filled twice and then moved.
#[derive(Drop)]
pub(crate) struct Room {
    pub(crate) lines: [Line; 512],
    pub(crate) count: usize,
    ghost full: { length lines ≡ 512 },
    ghost few: { count ≤ 512 },
}

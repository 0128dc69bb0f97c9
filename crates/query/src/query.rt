// A query that has passed the check.
ghost use Rattle.std.specs.Prelude.{◌≡◌, ◌≤◌, length, take};
ghost use Rattle.query.specs.Sizes.{Sized};
ghost use Rattle.query.specs.Verdicts.{Accepted};
ghost use Rattle.query.specs.Working.{Measured};

use crate::widths::Widths;
use arrayvec::ArrayVec;
use lines::line::Line;

// Its lines, with the widths of the tables that they were checked against, and the lines' own widths.
// The lines stand in an array with a count: an `ArrayVec` is filled and moved whole even for a caller who reads no line, and
// the check of a short query then takes twice as long.
#[derive(Drop)]
pub struct Query {
    pub(crate) lines: [Line; 32],
    pub(crate) size: usize,
    pub(crate) tables: ArrayVec<usize, 16>,
    pub(crate) widths: Widths,
    ghost few: { size ≤ 32 },
    ghost long: { length lines ≡ 32 },
    ghost sized: { Sized tables.items },
    ghost accepted: { Accepted (take size lines) tables.items },
    ghost measured: { Measured (take size lines) tables.items widths.each.items },
}

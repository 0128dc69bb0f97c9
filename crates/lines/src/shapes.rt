// What a line reads.
ghost use Rattle.std.specs.Prelude.{◌≡◌};
ghost use Rattle.lines.specs.Shapes.{shape_of, is_condition};

use crate::line::{Line, Shape};

impl Line {
    // The operands, by their kinds.
    pub fn shape(self) -> Shape
        ensures { result ≡ shape_of self }
    {
        match self {
            Line::Unit | Line::Table { .. } | Line::Compare { .. } | Line::IsNull { .. } => {
                Shape::Leaf
            }
            Line::Keep { rows, .. }
            | Line::Extend { rows, .. }
            | Line::Pad { rows, .. }
            | Line::Distinct { rows }
            | Line::Group { rows, .. }
            | Line::Total { rows, .. } => Shape::One(rows),
            Line::Match { left, right, .. }
            | Line::SemiMatch { left, right, .. }
            | Line::AntiMatch { left, right, .. }
            | Line::Union { left, right }
            | Line::Diff { left, right } => Shape::Two(left, right),
            Line::Select { rows, condition } | Line::ExtendTruth { rows, condition } => {
                Shape::Tested(rows, condition)
            }
            Line::ApplyCross { left, right }
            | Line::ApplyOuter { left, right }
            | Line::ApplySemi { left, right }
            | Line::ApplyAnti { left, right }
            | Line::ApplySome { left, right, .. }
            | Line::ApplyAll { left, right, .. } => Shape::Inner(left, right),
            Line::Not { condition } | Line::Unknown { condition } => Shape::Part(condition),
            Line::And { left, right } | Line::Or { left, right } => Shape::Parts(left, right),
        }
    }

    // Whether the line is a condition; the others have rows.
    pub fn is_condition(self) -> bool
        ensures { result ≡ is_condition self }
    {
        matches!(
            self,
            Line::Compare { .. }
                | Line::IsNull { .. }
                | Line::Not { .. }
                | Line::Unknown { .. }
                | Line::And { .. }
                | Line::Or { .. }
        )
    }
}

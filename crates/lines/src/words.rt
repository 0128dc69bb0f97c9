// Lines in words: the kind, the operands, then counts, columns and constants.
ghost use Rattle.std.specs.Prelude.{◌≡◌, Some, MatchResult};
ghost use Rattle.lines.specs.Spellings.{spelling, SpellsNone};

use crate::line::{Aggregate, Line, Side};
use std::fmt;

impl fmt::Display for Aggregate {
    ghost output = { λ aggregate. Some (spelling aggregate) };

    fn fmt<W: fmt::Write>(&self, f: &mut fmt::Formatter<W>) -> fmt::Result {
        match self {
            Aggregate::Rows => write!(f, "rows"),
            Aggregate::Filled => write!(f, "filled"),
            Aggregate::Sum => write!(f, "sum"),
            Aggregate::Least => write!(f, "least"),
            Aggregate::Greatest => write!(f, "greatest"),
        }
    }
}

// The word is no aggregate.
#[derive(Clone, Copy, Debug, PartialEq, Eq)]
pub struct UnknownAggregate;

impl<'a> TryFrom<&'a [u8]> for Aggregate {
    type Error = UnknownAggregate;

    ghost try_from_gives = { λ word r. MatchResult r (λ aggregate. word.now ≡ spelling aggregate) (λ _. SpellsNone word.now) };

    fn try_from(word: &'a [u8]) -> Result<Aggregate, UnknownAggregate> {
        match word {
            b"rows" => Ok(Aggregate::Rows),
            b"filled" => Ok(Aggregate::Filled),
            b"sum" => Ok(Aggregate::Sum),
            b"least" => Ok(Aggregate::Least),
            b"greatest" => Ok(Aggregate::Greatest),
            _ => Err(UnknownAggregate),
        }
    }
}

impl fmt::Display for Side {
    fn fmt<W: fmt::Write>(&self, f: &mut fmt::Formatter<W>) -> fmt::Result {
        match self {
            Side::Column(k) => write!(f, "column {k}"),
            Side::Constant(z) => write!(f, "constant {z}"),
        }
    }
}

impl fmt::Display for Line {
    fn fmt<W: fmt::Write>(&self, f: &mut fmt::Formatter<W>) -> fmt::Result {
        match self {
            Line::Unit => write!(f, "unit"),
            Line::Table { table } => write!(f, "table {table}"),
            Line::Select { rows, condition } => write!(f, "select {rows} {condition}"),
            Line::Keep { first, last, rows } => write!(f, "keep {rows} {first} {last}"),
            Line::Extend { rows, value } => write!(f, "extend {rows} {value}"),
            Line::ExtendTruth { rows, condition } => write!(f, "extend {rows} truth {condition}"),
            Line::Pad { nulls, rows } => write!(f, "pad {rows} {nulls}"),
            Line::Match {
                shared,
                left,
                right,
            } => write!(f, "match {left} {right} {shared}"),
            Line::SemiMatch {
                shared,
                left,
                right,
            } => write!(f, "semimatch {left} {right} {shared}"),
            Line::AntiMatch {
                shared,
                left,
                right,
            } => write!(f, "antimatch {left} {right} {shared}"),
            Line::Union { left, right } => write!(f, "union {left} {right}"),
            Line::Diff { left, right } => write!(f, "diff {left} {right}"),
            Line::Distinct { rows } => write!(f, "distinct {rows}"),
            Line::Group {
                keys,
                aggregate,
                column,
                rows,
            } => write!(f, "group {rows} {keys} {aggregate} {column}"),
            Line::Total {
                aggregate,
                column,
                rows,
            } => write!(f, "total {rows} {aggregate} {column}"),
            Line::ApplyCross { left, right } => write!(f, "apply cross {left} {right}"),
            Line::ApplyOuter { left, right } => write!(f, "apply outer {left} {right}"),
            Line::ApplySemi { left, right } => write!(f, "apply semi {left} {right}"),
            Line::ApplyAnti { left, right } => write!(f, "apply anti {left} {right}"),
            Line::ApplySome {
                sign,
                column,
                left,
                right,
            } => write!(f, "apply some {left} {right} {sign} {column}"),
            Line::ApplyAll {
                sign,
                column,
                left,
                right,
            } => write!(f, "apply all {left} {right} {sign} {column}"),
            Line::Compare { sign, left, right } => write!(f, "compare {left} {sign} {right}"),
            Line::IsNull { column } => write!(f, "isnull {column}"),
            Line::Not { condition } => write!(f, "not {condition}"),
            Line::Unknown { condition } => write!(f, "unknown {condition}"),
            Line::And { left, right } => write!(f, "and {left} {right}"),
            Line::Or { left, right } => write!(f, "or {left} {right}"),
        }
    }
}

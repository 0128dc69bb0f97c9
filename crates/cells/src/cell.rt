// What a table's row holds in a column.
ghost use Rattle.std.specs.Prelude.{◌≡◌};
ghost use Rattle.cells.specs.Cells.{same_cell, null_cell, stored, as_cell, Decides, InRange};

use crate::truth::Truth;
use std::fmt;

// NULL or a whole number, wide enough for sums of stored numbers. Not an Option: a type of the project's own has its own printing, conversions and the two relations.
#[derive(Clone, Copy, Debug, Default, PartialEq, Eq)]
pub enum Cell {
    #[default]
    Null,
    Number(i64),
}

// The least and the greatest number that a table stores or a query names.
pub const LEAST_STORED: i64 = -2147483648;

pub const GREATEST_STORED: i64 = 2147483647;

impl Cell {
    pub fn is_null(self) -> bool
        ensures { result ≡ null_cell self }
    {
        matches!(self, Cell::Null)
    }

    // Sameness, unlike comparison, takes NULL for the same as NULL.
    pub fn same(self, other: Cell) -> bool
        ensures value { result ≡ same_cell self other }
        ensures decides { Decides self other result }
    {
        self == other
    }

    // Whether a table may store the cell: NULL, or a number of 32 bits.
    pub fn is_stored(self) -> bool
        ensures value { result ≡ stored self }
        ensures range { InRange self result }
    {
        match self {
            Cell::Null => true,
            Cell::Number(z) => (LEAST_STORED..=GREATEST_STORED).contains(&z),
        }
    }
}

// What ExtendTruth and the quantified Applies lay: 1, 0 or NULL.
impl From<Truth> for Cell {
    ghost from_gives = { λ truth cell. cell ≡ as_cell truth };

    fn from(truth: Truth) -> Cell {
        match truth {
            Truth::True => Cell::Number(1),
            Truth::False => Cell::Number(0),
            Truth::Unknown => Cell::Null,
        }
    }
}

impl fmt::Display for Cell {
    fn fmt<W: fmt::Write>(&self, f: &mut fmt::Formatter<W>) -> fmt::Result {
        match self {
            Cell::Null => write!(f, "NULL"),
            Cell::Number(z) => write!(f, "{z}"),
        }
    }
}

// Why a call is refused.
ghost use Rattle.std.specs.Prelude.{◌≡◌};
ghost use Rattle.stock.specs.Refusals.{number_of, value_of};

use std::error::Error;
use std::fmt;

// Each case has a number of its own and carries the value that is returned with it.
#[derive(Clone, Copy, Debug, PartialEq, Eq)]
pub enum Refusal {
    // a query of no line or of over 32: how many
    LineCount(usize),
    // an operand that is not lower, or of the wrong kind: the line
    Operand(usize),
    // a line that is not read exactly once, or a condition as the last: the line
    Reading(usize),
    // a table that the stock lacks: the line
    UnknownTable(usize),
    // a width, a count or a constant outside its bounds: the line
    Misfit(usize),
    // a long row of over 32 columns: the line
    LongRow(usize),
    // a column outside the long row: the line
    UnknownColumn(usize),
    // a sum over a column that comes from a sum: the line
    SumOfSum(usize),
    // no query or no flat plan stands
    NothingStands,
    // a flat plan of over 512 lines
    LongPlan,
    // over 65,536 cells were lent
    ManyCells,
    // the lent cells run out: the line whose rows would pass them
    CellsOut(usize),
    // a table or a place that is not shown
    NotShown,
    // a row of the wrong width, or with a number outside the stored range: its width or the first such column
    BadRow(usize),
    // no room for one more movement or row
    NoRoom,
    // lent parts that make no shelf: the first table at fault
    BadTable(usize),
}

impl Refusal {
    pub fn number(self) -> usize
        ensures { result ≡ number_of self }
    {
        match self {
            Refusal::LineCount(_) => 1,
            Refusal::Operand(_) => 2,
            Refusal::Reading(_) => 3,
            Refusal::UnknownTable(_) => 4,
            Refusal::Misfit(_) => 5,
            Refusal::LongRow(_) => 6,
            Refusal::UnknownColumn(_) => 7,
            Refusal::SumOfSum(_) => 8,
            Refusal::NothingStands => 9,
            Refusal::LongPlan => 10,
            Refusal::ManyCells => 11,
            Refusal::CellsOut(_) => 12,
            Refusal::NotShown => 13,
            Refusal::BadRow(_) => 14,
            Refusal::NoRoom => 15,
            Refusal::BadTable(_) => 16,
        }
    }

    pub fn value(self) -> usize
        ensures { result ≡ value_of self }
    {
        match self {
            Refusal::LineCount(value)
            | Refusal::Operand(value)
            | Refusal::Reading(value)
            | Refusal::UnknownTable(value)
            | Refusal::Misfit(value)
            | Refusal::LongRow(value)
            | Refusal::UnknownColumn(value)
            | Refusal::SumOfSum(value)
            | Refusal::CellsOut(value)
            | Refusal::BadRow(value)
            | Refusal::BadTable(value) => value,
            Refusal::NothingStands
            | Refusal::LongPlan
            | Refusal::ManyCells
            | Refusal::NotShown
            | Refusal::NoRoom => 0,
        }
    }
}

impl fmt::Display for Refusal {
    fn fmt<W: fmt::Write>(&self, f: &mut fmt::Formatter<W>) -> fmt::Result {
        let number = self.number();
        let value = self.value();
        write!(f, "number {number}, value {value}")
    }
}

impl Error for Refusal {}

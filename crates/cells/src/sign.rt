// The six comparison signs.
ghost use Rattle.std.specs.Prelude.{◌≡◌, MatchResult, Some};
ghost use Rattle.cells.specs.Spellings.{spelling, SpellsNone};
ghost use Rattle.cells.specs.Cells.{compare_cells, UnknownAtNull};

use crate::cell::Cell;
use crate::truth::Truth;
use std::fmt;

#[derive(Clone, Copy, Debug, PartialEq, Eq)]
pub enum Sign {
    Equal,
    Unequal,
    Less,
    AtMost,
    More,
    AtLeast,
}

impl Sign {
    // Numbers compare as signed; where a side is NULL the truth is unknown.
    pub fn compare(self, left: Cell, right: Cell) -> Truth
        ensures value { result ≡ compare_cells self left right }
        ensures unknown { UnknownAtNull left right result }
    {
        let (Cell::Number(a), Cell::Number(b)) = (left, right) else {
            return Truth::Unknown;
        };
        Truth::from(match self {
            Sign::Equal => a == b,
            Sign::Unequal => a != b,
            Sign::Less => a < b,
            Sign::AtMost => a <= b,
            Sign::More => a > b,
            Sign::AtLeast => a >= b,
        })
    }
}

// As SQL writes it.
impl fmt::Display for Sign {
    ghost output = { λ sign. Some (spelling sign) };

    fn fmt<W: fmt::Write>(&self, f: &mut fmt::Formatter<W>) -> fmt::Result {
        match self {
            Sign::Equal => write!(f, "="),
            Sign::Unequal => write!(f, "<>"),
            Sign::Less => write!(f, "<"),
            Sign::AtMost => write!(f, "<="),
            Sign::More => write!(f, ">"),
            Sign::AtLeast => write!(f, ">="),
        }
    }
}

// The word is no sign.
#[derive(Clone, Copy, Debug, PartialEq, Eq)]
pub struct UnknownSign;

impl<'a> TryFrom<&'a [u8]> for Sign {
    type Error = UnknownSign;

    ghost try_from_gives = { λ word r. MatchResult r (λ sign. word.now ≡ spelling sign) (λ _. SpellsNone word.now) };

    fn try_from(word: &'a [u8]) -> Result<Sign, UnknownSign> {
        match word {
            b"=" => Ok(Sign::Equal),
            b"<>" => Ok(Sign::Unequal),
            b"<" => Ok(Sign::Less),
            b"<=" => Ok(Sign::AtMost),
            b">" => Ok(Sign::More),
            b">=" => Ok(Sign::AtLeast),
            _ => Err(UnknownSign),
        }
    }
}

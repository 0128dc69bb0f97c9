// Numbers and cells.
ghost use Rattle.std.specs.Prelude.{◌≡◌};
ghost use Rattle.commands.specs.Numbers.{one_more, digits_of, natural, negative, number_of};

use crate::words::Words;
use cells::cell::Cell;

// The number with one more digit behind it, if the byte is one and 64 bits hold it.
fn one_more(n: u64, byte: u8) -> Option<u64>
    ensures { result ≡ one_more n byte }
{
    if !byte.is_ascii_digit() {
        return None;
    }
    n.checked_mul(10)?.checked_add(u64::from(byte - b'0'))
}

// The number that a word of digits writes.
pub(crate) fn digits(word: &[u8]) -> Option<u64>
    ensures { result ≡ digits_of word.now }
{
    if word.is_empty() {
        return None;
    }
    word.iter().try_fold(0, |n, b| one_more(n, *b))
}

// The same with its sign, if 64 bits hold that too.
fn natural(size: Option<u64>) -> Option<i64>
    ensures { result ≡ natural size }
{
    i64::try_from(size?).ok()
}

fn negative(size: Option<u64>) -> Option<i64>
    ensures { result ≡ negative size }
{
    i64::try_from(-i128::from(size?)).ok()
}

// The number that a word of digits writes, with at most one minus in front.
pub(crate) fn number(word: &[u8]) -> Option<i64>
    ensures { result ≡ number_of word.now }
{
    match word {
        [b'-', size @ ..] => negative(digits(size)),
        size => natural(digits(size)),
    }
}

pub(crate) fn cell(word: &[u8]) -> Option<Cell> {
    match word {
        b"NULL" => Some(Cell::Null),
        word => number(word).map(Cell::Number),
    }
}

impl<'a> Words<'a> {
    // The next word as a count, an operand or a place.
    pub(crate) fn count(&mut self) -> Option<usize> {
        Some(digits(self.next()?)? as usize)
    }

    pub(crate) fn number(&mut self) -> Option<i64> {
        number(self.next()?)
    }
}

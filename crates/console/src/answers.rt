// Answers, a line each.
ghost use Rattle.std.specs.Iterator.{IsFinite};

use cells::cell::Cell;
use lines::line::Line;
use std::fmt::Display;
use std::io::Write;
use std::{fmt, io};
use stock::refusal::Refusal;
use stock::stock::Stock;

// How many lines or rows there are, and their width.
#[derive(Clone, Copy)]
struct Size(usize, usize);

impl Display for Size {
    fn fmt<W: fmt::Write>(&self, f: &mut fmt::Formatter<W>) -> fmt::Result {
        let Size(count, width) = *self;
        write!(f, "{count} {width}")
    }
}

pub fn unread<W: Write>(out: &mut W, place: u64) -> io::Result<()> {
    writeln!(out, "unread {place}")
}

// In the words that scripts read; a refusal's own are for people.
pub fn refused<W: Write>(out: &mut W, refusal: Refusal) -> io::Result<()> {
    let number = refusal.number();
    let value = refusal.value();
    writeln!(out, "refused {number} {value}")
}

// What a call answers.
pub fn answered<W: Write, T: Display + Drop>(
    out: &mut W,
    call: &str,
    answer: Result<T, Refusal>,
) -> io::Result<()> {
    match answer {
        Ok(value) => writeln!(out, "{call} {value}"),
        Err(refusal) => refused(out, refusal),
    }
}

// A call that answers lines or rows with a width.
pub fn sized<W: Write>(
    out: &mut W,
    call: &str,
    answer: Result<(usize, usize), Refusal>,
) -> io::Result<()> {
    answered(out, call, answer.map(|(count, width)| Size(count, width)))
}

fn row<W: Write, I: Iterator<Item = Cell>>(out: &mut W, cells: I) -> io::Result<()>
    requires can { I.can_next cells }
    requires ends { IsFinite (I.remaining cells) }
{
    write!(out, "row")?;
    for cell in cells {
        write!(out, " {cell}")?;
    }
    writeln!(out, "")
}

// The call's answer, and the rows that it left first in the cells.
pub fn rows<W: Write>(
    out: &mut W,
    call: &str,
    answer: Result<(usize, usize), Refusal>,
    cells: &[Cell],
) -> io::Result<()> {
    sized(out, call, answer)?;
    if let Ok((count, width)) = answer {
        for one in cells.chunks(width.max(1)).take(count) {
            row(out, one.iter().copied())?;
        }
    }
    Ok(())
}

pub fn lines<W: Write>(out: &mut W, lines: &[Line]) -> io::Result<()> {
    let count = lines.len();
    writeln!(out, "plan {count}")?;
    for (i, line) in lines.iter().enumerate() {
        writeln!(out, "{i} {line}")?;
    }
    Ok(())
}

// The rows that a table shows. A stock lends none: it is asked for each cell by its place and column.
pub fn shown<W: Write, S: Stock>(out: &mut W, stock: &S, table: usize) -> io::Result<()> {
    if table >= stock.table_count() {
        return refused(out, Refusal::NotShown);
    }
    let rows = stock.row_count(table);
    writeln!(out, "show {rows}")?;
    for place in 0..rows {
        let columns = 0..stock.width(table);
        row(out, columns.map(|column| stock.cell(table, place, column)))?;
    }
    Ok(())
}

// Answers in plain words.
ghost use Rattle.std.specs.Iterator.{IsFinite};

use cells::cell::Cell;
use std::io;
use stock::refusal::Refusal;

// What a call answered: a count of something, or a refusal.
pub fn tell(rt: &HostRuntime, counted: &str, answer: Result<usize, Refusal>) -> io::Result<()> {
    match answer {
        Ok(n) => println!(rt; "  {counted}: {n}"),
        Err(refusal) => refused(rt, refusal),
    }
}

// Rows as they lie in lent cells, or a refusal.
pub fn tell_rows(
    rt: &HostRuntime,
    answer: Result<(usize, usize), Refusal>,
    cells: &[Cell],
) -> io::Result<()> {
    match answer {
        Ok((rows, width)) => {
            for row in cells.chunks(width.max(1)).take(rows) {
                print!(rt; "  ")?;
                tell_row(rt, row.iter().copied())?;
                println!(rt; "")?;
            }
            Ok(())
        }
        Err(refusal) => refused(rt, refusal),
    }
}

pub fn tell_row<I: Iterator<Item = Cell>>(rt: &HostRuntime, mut cells: I) -> io::Result<()>
    requires can { I.can_next cells }
    requires ends { IsFinite (I.remaining cells) }
{
    print!(rt; "(")?;
    if let Some(first) = cells.next() {
        print!(rt; "{first}")?;
        for cell in cells {
            print!(rt; ", {cell}")?;
        }
    }
    print!(rt; ")")
}

pub fn refused(rt: &HostRuntime, refusal: Refusal) -> io::Result<()> {
    println!(rt; "  refused with {refusal}")
}

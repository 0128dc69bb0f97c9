// Before a session: the tables of the opening shelf.
use crate::answers::{answered, unread};
use crate::input::{Input, Said};
use cells::cell::Cell;
use commands::command::Command;
use lines::line::Line;
use shelf::shelf::Shelf;
use std::alloc::{AllocError, Global};
use std::io;
use std::io::Write;

// The parts that a shelf is made of: cells, and a pair of width and row count for each table.
#[derive(Drop)]
pub struct Parts {
    pub cells: Vec<Cell>,
    pub pairs: Vec<(usize, usize)>,
}

impl Parts {
    fn none(heap: Global) -> Parts {
        Parts {
            cells: Vec::new(heap),
            pairs: Vec::new(heap),
        }
    }

    fn clear(&mut self) {
        self.cells.clear();
        self.pairs.clear();
    }

    // Whether there is a last table, and the row is as wide.
    fn takes(&self, row: &[Cell]) -> bool {
        self.pairs
            .last()
            .is_some_and(|(width, _)| *width == row.len())
    }

    // One row more in the last table.
    fn put(&mut self, row: &[Cell]) -> Result<(), AllocError> {
        self.cells.extend_from_slice(row)?;
        if let Some((_, rows)) = self.pairs.last_mut() {
            *rows = rows.saturating_add(1);
        }
        Ok(())
    }
}

// Answers how many tables the parts make, and whether they make a shelf. Parts that make none are forgotten.
fn open<W: Write>(out: &mut W, parts: &mut Parts) -> io::Result<bool> {
    let answer = Shelf::check(&parts.cells, &parts.pairs);
    answered(out, "open", answer)?;
    if answer.is_err() {
        parts.clear();
    }
    Ok(answer.is_ok())
}

// Whether the parts make a shelf now. No Option of the parts: they are lent, and the next command goes on with them.
fn obey<W: Write>(
    said: Said,
    out: &mut W,
    parts: &mut Parts,
    lines: &mut Vec<Line>,
) -> io::Result<bool> {
    match said.command {
        Some(Command::Table(width)) => parts.pairs.push((width, 0))?,
        Some(Command::Row) if parts.takes(said.row) => parts.put(said.row)?,
        Some(Command::Line(line)) => lines.push(line)?,
        Some(Command::Open) => return open(out, parts),
        _ => unread(out, said.place)?,
    }
    Ok(false)
}

// Takes commands until a shelf is made of the parts. None where the input ends before.
pub fn prepare<W: Write>(
    heap: Global,
    input: &mut Input,
    out: &mut W,
    lines: &mut Vec<Line>,
) -> io::Result<Option<Parts>> {
    let mut parts = Parts::none(heap);
    // Counted, as in `Input`: the input may never end, and a loop must.
    for _ in 0..u64::MAX {
        let Some(said) = input.next()? else {
            break;
        };
        let is_open = obey(said, out, &mut parts, lines)?;
        out.flush()?;
        if is_open {
            return Ok(Some(parts));
        }
    }
    Ok(None)
}

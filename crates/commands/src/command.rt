// Commands.
use crate::numbers::cell;
use crate::words::Words;
use cells::cell::Cell;
use lines::line::Line;
use std::alloc::AllocError;

// What a line asks for. The cells of Row and Add are read apart.
#[derive(Clone, Copy, Debug, PartialEq, Eq)]
pub enum Command {
    Table(usize),
    Row,
    Open,
    Line(Line),
    Lay,
    Unnest,
    Plan,
    Add(usize),
    Withdraw(usize, usize),
    Clear,
    Ask(usize),
    Run(usize),
    Show(usize),
}

// A command of words and numbers alone, with no word behind it.
fn plain(name: &[u8], words: &mut Words) -> Option<Command> {
    let command = match name {
        b"table" => Command::Table(words.count()?),
        b"open" => Command::Open,
        b"line" => Command::Line(words.line()?),
        b"lay" => Command::Lay,
        b"unnest" => Command::Unnest,
        b"plan" => Command::Plan,
        b"withdraw" => Command::Withdraw(words.count()?, words.count()?),
        b"clear" => Command::Clear,
        b"ask" => Command::Ask(words.count()?),
        b"run" => Command::Run(words.count()?),
        b"show" => Command::Show(words.count()?),
        _ => return None,
    };
    words.end()?;
    Some(command)
}

// Puts the words left into the row, or answers None where one of them is no cell.
fn read_cells(words: &mut Words, row: &mut Vec<Cell>) -> Result<Option<()>, AllocError> {
    row.clear();
    for word in words {
        let Some(cell) = cell(word) else {
            return Ok(None);
        };
        row.push(cell)?;
    }
    Ok(Some(()))
}

impl Command {
    // The command that the words say, or None where they say none. A row's cells are put into `row`.
    pub fn read(words: &mut Words, row: &mut Vec<Cell>) -> Result<Option<Command>, AllocError> {
        let Some(name) = words.next() else {
            return Ok(None);
        };
        match name {
            b"row" => Ok(read_cells(words, row)?.map(|_| Command::Row)),
            b"add" => {
                let Some(table) = words.count() else {
                    return Ok(None);
                };
                Ok(read_cells(words, row)?.map(|_| Command::Add(table)))
            }
            name => Ok(plain(name, words)),
        }
    }
}

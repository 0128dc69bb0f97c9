// The input, line by line.
use cells::cell::Cell;
use commands::command::Command;
use commands::words::{Words, bytes_before};
use std::alloc::{AllocError, Global};
use std::io;
use std::io::{BufRead, BufReader, Stdin};

// A longer line cannot be read; what is behind this and one byte more is passed over and takes no room.
const LONGEST: usize = 1048576;

// The room of a line and of a row is used again for the next.
#[derive(Drop)]
pub struct Input {
    source: BufReader<Stdin>,
    line: Vec<u8>,
    place: u64,
    row: Vec<Cell>,
}

// A line that says something: its place, from 1, its command, or None where it cannot be read, and the cells of the row that was read last.
#[derive(Clone, Copy)]
pub struct Said<'a> {
    pub place: u64,
    pub command: Option<Command>,
    pub row: &'a [Cell],
}

// How a stretch of the input ended.
enum Stretch {
    LineEnd,
    InputEnd,
    Open,
}

impl Input {
    pub fn of(heap: Global, source: BufReader<Stdin>) -> Input {
        Input {
            source,
            line: Vec::new(heap),
            place: 0,
            row: Vec::new(heap),
        }
    }

    fn is_long(&self) -> bool {
        self.line.len() > LONGEST
    }

    // Takes what is held of the line into it. By hand: through `Take` and `read_until` a remark took 1.8 times as long, and an empty line 1.6 times.
    fn take(&mut self) -> io::Result<Stretch> {
        let held = self.source.fill_buf()?;
        if held.is_empty() {
            return Ok(Stretch::InputEnd);
        }
        let n = bytes_before(held, b'\n');
        let ends = n < held.len();
        let room = (LONGEST + 1).saturating_sub(self.line.len());
        self.line.extend_from_slice(&held[..n.min(room)])?;
        if ends {
            self.source.consume(n + 1);
            return Ok(Stretch::LineEnd);
        }
        self.source.consume(n);
        Ok(Stretch::Open)
    }

    // Takes the next line in and answers its place, or None at the end of the input.
    fn next_line(&mut self) -> io::Result<Option<u64>> {
        self.line.clear();
        self.place = self.place.saturating_add(1);
        // Counted, as below.
        for _ in 0..u64::MAX {
            match self.take()? {
                Stretch::LineEnd => return Ok(Some(self.place)),
                Stretch::InputEnd => return Ok((!self.line.is_empty()).then_some(self.place)),
                Stretch::Open => {}
            }
        }
        Ok(None)
    }

    // Whether the line says nothing: a remark, or no word at all.
    fn is_idle(&self) -> bool {
        !self.is_long() && (self.line.starts_with(b"#") || Words::of(&self.line).next().is_none())
    }

    // Goes on to the next line that says something and answers its place, or None at the end of the input.
    fn advance(&mut self) -> io::Result<Option<u64>> {
        // The input may never end, and a loop must: it is counted.
        for _ in 0..u64::MAX {
            let place = self.next_line()?;
            if place.is_none() || !self.is_idle() {
                return Ok(place);
            }
        }
        Ok(None)
    }

    fn command(&mut self) -> Result<Option<Command>, AllocError> {
        if self.is_long() {
            return Ok(None);
        }
        let mut words = Words::of(&self.line);
        Command::read(&mut words, &mut self.row)
    }

    // What the next line says that says something, or None at the end of the input.
    pub fn next(&mut self) -> io::Result<Option<Said<'_>>> {
        let Some(place) = self.advance()? else {
            return Ok(None);
        };
        let command = self.command()?;
        Ok(Some(Said {
            place,
            command,
            row: &self.row,
        }))
    }
}

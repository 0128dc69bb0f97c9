// A session that is driven by commands: each line of the input is one, and each that asks for an answer gets it on a line.
#![tactic(auto)]

mod answers;
mod input;
mod opening;
mod serving;

use cells::cell::Cell;
use input::Input;
use opening::prepare;
use serving::Service;
use session::session::Session;
use shelf::shelf::Shelf;
use std::io;
use std::io::{BufReader, BufWriter};

// One more cell than may be lent, so that lending too many can be tried.
const LENT: usize = 65537;

fn main(rt: HostRuntime) -> io::Result<()> {
    let heap = rt.alloc();
    let mut input = Input::of(heap, BufReader::new(heap, rt.stdin())?);
    let mut out = BufWriter::new(heap, rt.stdout())?;
    let mut lines = Vec::new(heap);
    let Some(parts) = prepare(heap, &mut input, &mut out, &mut lines)? else {
        return Ok(());
    };
    let cells = vec![in heap; Cell::Null; LENT]?;
    let session = Session::open(Shelf::of(&parts.cells, &parts.pairs));
    let mut service = Service {
        session,
        lines,
        cells,
        out,
    };
    service.serve(&mut input)
}

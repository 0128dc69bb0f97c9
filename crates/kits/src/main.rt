// The kits that have as many shipments as they should: laid, unnested and run in a session. Prints the case's number and how many rows came.
#![tactic(auto)]

use cells::cell::Cell;
use dealer::{KITS_AND_SHIPMENTS, REORDER, TABLES};
use session::calls::{Answer, Call, Event};
use session::replay::replay;
use shelf::shelf::Shelf;
use std::alloc::{AllocError, Global};
use std::io;

fn event(heap: Global, call: Call, lent: usize) -> Result<Event, AllocError> {
    let cells = vec![in heap; Cell::Null; lent]?;
    let answer = Answer::Open;
    Ok(Event {
        call,
        cells,
        answer,
    })
}

// How many rows the run of the plan gave, or None where it was refused.
fn rows_run(heap: Global) -> Result<Option<usize>, AllocError> {
    let mut past = Vec::new(heap);
    past.push(event(heap, Call::Lay(REORDER.to_vec(heap)?), 0)?)?;
    past.push(event(heap, Call::Unnest, 0)?)?;
    past.push(event(heap, Call::Run, 115)?)?;
    drop(replay(Shelf::of(&KITS_AND_SHIPMENTS, &TABLES), &mut past));
    match past.last() {
        Some(
            Event {
                answer: Answer::Size(rows, _),
                ..
            },
        ) => Ok(Some(*rows)),
        _ => Ok(None),
    }
}

fn main(rt: HostRuntime) -> io::Result<()> {
    match rows_run(rt.alloc())? {
        Some(rows) => println!(rt; "1 {rows}"),
        None => println!(rt; "1 refused"),
    }
}

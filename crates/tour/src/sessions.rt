// A session: one query and its flat plan over the rows shown.
use crate::answers::{tell, tell_rows};
use cells::cell::Cell;
use dealer::{REORDER, SHIPMENTS};
use session::session::Session;
use std::io;
use stock::stock::Stock;

fn ask_and_run<S: Stock>(rt: &HostRuntime, session: &Session<S>) -> io::Result<()> {
    let mut cells = [Cell::Null; 200];
    println!(rt; "  ask:")?;
    let answer = session.ask(&mut cells);
    tell_rows(rt, answer, &cells)?;
    println!(rt; "  run:")?;
    let answer = session.run(&mut cells);
    tell_rows(rt, answer, &cells)
}

// Apart, so that the stack no longer holds what a session is made of when its calls are made.
#[inline(never)]
fn opened<S: Stock>(stock: S) -> Session<S> {
    Session::open(stock)
}

pub fn live<S: Stock + Drop>(rt: &HostRuntime, stock: S) -> io::Result<()> {
    println!(rt; "A session over the shelf lays the query and unnests it.")?;
    let mut session = opened(stock);
    tell(rt, "flat lines, before any query", session.unnest())?;
    if let Ok((lines, width)) = session.lay(&REORDER) {
        println!(rt; "  laid: {lines} lines, {width} columns")?;
    }
    tell(rt, "flat lines", session.unnest())?;
    println!(rt; "Asked row by row and run at once, it gives the same kits:")?;
    ask_and_run(rt, &session)?;
    println!(rt; "A shipment for kit 2 arrives, which wants none:")?;
    let row = [Cell::Number(2), Cell::Number(9)];
    tell(rt, "rows now shown", session.add(SHIPMENTS, &row))?;
    ask_and_run(rt, &session)
}

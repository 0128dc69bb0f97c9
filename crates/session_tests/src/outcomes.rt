// Answers as the tests expect them.
use cells::cell::Cell;
use session::session::Session;
use std::process::Abort;
use stock::refusal::Refusal;
use stock::stock::Stock;

// Only tests may stop the process, so no crate below can lend this to all test crates.
pub fn refused<T: Drop>(rt: &impl Abort, answer: Result<T, Refusal>, number: usize, value: usize) {
    let refusal = answer.err().map(|e| (e.number(), e.value()));
    assert_eq!(rt; refusal, Some((number, value)));
}

// Ask and run give so many rows of this first cell, the first of them.
pub fn both<S: Stock>(rt: &impl Abort, session: &Session<S>, rows: usize, first: Cell) {
    let mut cells = [Cell::Number(9); 400];
    assert_eq!(rt; session.ask(&mut cells), Ok((rows, 2)));
    assert_eq!(rt; cells[0], first);
    assert_eq!(rt; session.run(&mut cells), Ok((rows, 2)));
    assert_eq!(rt; cells[0], first);
}

// Answers as the tests expect them. Only tests may stop the process, so no crate below can lend these to all test crates.
use cells::cell::Cell;
use std::process::Abort;
use stock::refusal::Refusal;
use stock::stock::Stock;

pub fn refused<T: Drop>(rt: &impl Abort, answer: Result<T, Refusal>, number: usize, value: usize) {
    let refusal = answer.err().map(|e| (e.number(), e.value()));
    assert_eq!(rt; refusal, Some((number, value)));
}

// A table of one column holds just these cells.
pub fn holds<S: Stock>(rt: &impl Abort, stock: &S, table: usize, cells: &[Cell]) {
    assert_eq!(rt; stock.width(table), 1);
    assert_eq!(rt; stock.row_count(table), cells.len());
    for (place, cell) in cells.iter().enumerate() {
        assert_eq!(rt; stock.cell(table, place, 0), *cell);
    }
    assert_eq!(rt; stock.cell(table, cells.len(), 0), Cell::Null);
}

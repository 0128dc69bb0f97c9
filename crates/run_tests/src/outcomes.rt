// Lines worked out with just the cells that they need, and with one less.
use cells::cell::Cell;
use dealer::{KITS_AND_SHIPMENTS, TABLES};
use evaluate::ask::ask;
use evaluate::run::run;
use lines::line::Line;
use query::query::Query;
use shelf::shelf::Shelf;
use std::process::Abort;
use std::test::Fail;
use stock::refusal::Refusal;
use unnest::plan::FlatPlan;

pub const NULL: Cell = Cell::Null;

pub const ZERO: Cell = Cell::Number(0);

pub const ONE: Cell = Cell::Number(1);

pub const TWO: Cell = Cell::Number(2);

pub const THREE: Cell = Cell::Number(3);

pub const KITS: Line = Line::Table {
    table: dealer::KITS,
};

pub const SHIPMENTS: Line = Line::Table {
    table: dealer::SHIPMENTS,
};

pub fn planned(lines: &[Line]) -> Result<FlatPlan, Fail> {
    let query = Query::check(lines, &Shelf::of(&KITS_AND_SHIPMENTS, &TABLES))?;
    Ok(FlatPlan::unnest(&query)?)
}

pub fn run_into(plan: &FlatPlan, cells: &mut [Cell]) -> Result<(usize, usize), Refusal> {
    run(&Shelf::of(&KITS_AND_SHIPMENTS, &TABLES), plan, cells)
}

// Only tests may stop the process, so no crate below can lend this to all test crates.
pub fn refused<T: Drop>(rt: &impl Abort, answer: Result<T, Refusal>, number: usize, value: usize) {
    let refusal = answer.err().map(|e| (e.number(), e.value()));
    assert_eq!(rt; refusal, Some((number, value)));
}

// The cells hold these and NULLs behind them.
pub fn hold(rt: &impl Abort, cells: &[Cell], expected: &[Cell]) {
    assert!(rt; expected.len() <= cells.len());
    let (rows, rest) = cells.split_at(expected.len());
    assert_eq!(rt; rows, expected);
    assert!(rt; rest.iter().all(|cell| cell.is_null()));
}

// With `need` cells the work gives rows of a width, as many as `size` says, with one less its line comes back.
fn exactly<R: Abort + AllocGlobal, W: Fn(&mut [Cell]) -> Result<(usize, usize), Refusal>>(
    rt: &R,
    work: W,
    need: usize,
    line: usize,
    size: (usize, usize),
    expected: &[Cell],
) -> Result<(), Fail>
    requires { W.IsAlwaysCallable work }
{
    let mut lent = vec![in rt.alloc(); Cell::Number(9); need]?;
    assert_eq!(rt; work(&mut lent), Ok(size));
    hold(rt, &lent, expected);
    let mut short = vec![in rt.alloc(); Cell::Number(9); need.saturating_sub(1)]?;
    refused(rt, work(&mut short), 12, line);
    hold(rt, &short, &[]);
    Ok(())
}

// The lines' flat plan is run.
pub fn needs<R: Abort + AllocGlobal>(
    rt: &R,
    lines: &[Line],
    need: usize,
    line: usize,
    size: (usize, usize),
    expected: &[Cell],
) -> Result<(), Fail> {
    let plan = planned(lines)?;
    exactly(
        rt,
        |cells: &mut [Cell]| run_into(&plan, cells),
        need,
        line,
        size,
        expected,
    )
}

// The query itself is asked.
pub fn asks<R: Abort + AllocGlobal>(
    rt: &R,
    lines: &[Line],
    need: usize,
    line: usize,
    size: (usize, usize),
    expected: &[Cell],
) -> Result<(), Fail> {
    let stock = Shelf::of(&KITS_AND_SHIPMENTS, &TABLES);
    let query = Query::check(lines, &stock)?;
    exactly(
        rt,
        |cells: &mut [Cell]| ask(&stock, &query, cells),
        need,
        line,
        size,
        expected,
    )
}

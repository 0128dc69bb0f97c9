// Lent cells at their limits, and plans with shared lines.
use crate::outcomes::{KITS, ONE, TWO, ZERO, hold, needs, planned, refused, run_into};
use cells::cell::Cell;
use dealer::REORDER;
use evaluate::run::run;
use lines::line::Line;
use query::query::Query;
use std::test::Fail;
use stock::ruler::Ruler;
use unnest::plan::FlatPlan;

// The flat plan reads two of its lines more than once. Its lines take 8, 6, 6, 36, 12, 6, 2, 3, 9, 12, 9 and 6 cells.
#[test]
fn a_plan_with_shared_lines(rt: HostRuntime) -> Result<(), Fail> {
    let rows = [ONE, TWO, TWO, ZERO, TWO, ZERO];
    needs(&rt, &REORDER, 115, 13, (3, 2), &rows)?;
    let plan = planned(&REORDER)?;
    for (lent, line) in [(0, 0), (7, 0), (8, 1), (19, 2), (20, 3), (55, 3), (56, 5)] {
        let mut cells = vec![in rt.alloc(); Cell::Number(9); lent]?;
        refused(&rt, run_into(&plan, &mut cells), 12, line);
        hold(&rt, &cells, &[]);
    }
    Ok(())
}

#[test]
fn at_most_65536_cells(rt: HostRuntime) -> Result<(), Fail> {
    let plan = planned(&[Line::Unit])?;
    let mut most = vec![in rt.alloc(); Cell::Number(9); 65536]?;
    assert_eq!(rt; run_into(&plan, &mut most), Ok((1, 1)));
    hold(&rt, &most, &[ZERO]);
    let mut more = vec![in rt.alloc(); Cell::Number(9); 65537]?;
    refused(&rt, run_into(&plan, &mut more), 11, 0);
    assert!(rt; more.iter().all(|cell| *cell == Cell::Number(9)));
    Ok(())
}

// No row stands, so no cell is needed.
#[test]
fn no_rows_need_no_cells(rt: HostRuntime) -> Result<(), Fail> {
    let empty = Ruler::of(0);
    let lines = [KITS, Line::Distinct { rows: 0 }];
    let query = Query::check(&lines, &empty)?;
    let plan = FlatPlan::unnest(&query)?;
    assert_eq!(rt; run(&empty, &plan, &mut []), Ok((0, 1)));
    // over other tables than it was made for, nothing stands to be run
    let plan = planned(&[Line::Unit])?;
    let mut cells = [Cell::Number(9)];
    refused(&rt, run(&empty, &plan, &mut cells), 9, 0);
    assert_eq!(rt; cells[0], Cell::Number(9));
    Ok(())
}

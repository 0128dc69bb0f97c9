// Each kind of line with its rows and its exact need.
use crate::outcomes::{KITS, NULL, ONE, SHIPMENTS, THREE, TWO, ZERO, needs};
use cells::cell::Cell;
use cells::sign::Sign;
use lines::line::{Aggregate, Line, Side};
use std::test::Fail;

#[test]
fn table_and_unit(rt: HostRuntime) -> Result<(), Fail> {
    let kits = [ONE, TWO, TWO, ZERO, TWO, ZERO, THREE, NULL];
    needs(&rt, &[KITS], 8, 0, (4, 2), &kits)?;
    needs(&rt, &[Line::Unit], 1, 0, (1, 1), &[ZERO])
}

#[test]
fn select(rt: HostRuntime) -> Result<(), Fail> {
    let wanted = Line::Compare {
        sign: Sign::Equal,
        left: Side::Column(1),
        right: Side::Constant(0),
    };
    let lines = [
        KITS,
        wanted,
        Line::Select {
            rows: 0,
            condition: 1,
        },
    ];
    needs(&rt, &lines, 12, 2, (2, 2), &[TWO, ZERO, TWO, ZERO])
}

#[test]
fn keep_and_pad(rt: HostRuntime) -> Result<(), Fail> {
    let keep = [
        KITS,
        Line::Keep {
            first: 0,
            last: 1,
            rows: 0,
        },
    ];
    needs(&rt, &keep, 12, 1, (4, 1), &[TWO, ZERO, ZERO, NULL])?;
    let pad = [Line::Unit, Line::Pad { nulls: 2, rows: 0 }];
    needs(&rt, &pad, 4, 1, (1, 3), &[ZERO, NULL, NULL])
}

#[test]
fn extend(rt: HostRuntime) -> Result<(), Fail> {
    let column = [
        SHIPMENTS,
        Line::Extend {
            rows: 0,
            value: Side::Column(0),
        },
    ];
    let (five, seven) = (Cell::Number(5), Cell::Number(7));
    let copied = [ONE, five, ONE, ONE, seven, ONE, THREE, NULL, THREE];
    needs(&rt, &column, 15, 1, (3, 3), &copied)?;
    let truth = [
        SHIPMENTS,
        Line::IsNull { column: 1 },
        Line::ExtendTruth {
            rows: 0,
            condition: 1,
        },
    ];
    let told = [ONE, five, ZERO, ONE, seven, ZERO, THREE, NULL, ONE];
    needs(&rt, &truth, 15, 2, (3, 3), &told)
}

#[test]
fn matches(rt: HostRuntime) -> Result<(), Fail> {
    let (shared, left, right) = (1, 0, 1);
    let joined = [
        KITS,
        SHIPMENTS,
        Line::Match {
            shared,
            left,
            right,
        },
    ];
    let (five, seven) = (Cell::Number(5), Cell::Number(7));
    let rows = [ONE, TWO, five, ONE, TWO, seven, THREE, NULL, NULL];
    needs(&rt, &joined, 23, 2, (3, 3), &rows)?;
    let semi = [
        KITS,
        SHIPMENTS,
        Line::SemiMatch {
            shared,
            left,
            right,
        },
    ];
    needs(&rt, &semi, 18, 2, (2, 2), &[ONE, TWO, THREE, NULL])?;
    let anti = [
        KITS,
        SHIPMENTS,
        Line::AntiMatch {
            shared,
            left,
            right,
        },
    ];
    needs(&rt, &anti, 18, 2, (2, 2), &[TWO, ZERO, TWO, ZERO])
}

#[test]
fn union_diff_and_distinct(rt: HostRuntime) -> Result<(), Fail> {
    let twice = [
        SHIPMENTS,
        KITS,
        Line::Union { left: 0, right: 1 },
        Line::Distinct { rows: 2 },
    ];
    let (five, seven) = (Cell::Number(5), Cell::Number(7));
    let rows = [ONE, five, ONE, seven, THREE, NULL, ONE, TWO, TWO, ZERO];
    needs(&rt, &twice, 38, 3, (5, 2), &rows)?;
    // the kit (3, NULL) is the same as a shipment
    let diff = [KITS, SHIPMENTS, Line::Diff { left: 0, right: 1 }];
    needs(&rt, &diff, 20, 2, (3, 2), &[ONE, TWO, TWO, ZERO, TWO, ZERO])
}

#[test]
fn group(rt: HostRuntime) -> Result<(), Fail> {
    for (aggregate, cells) in [
        (Aggregate::Rows, [ONE, TWO, ONE]),
        (Aggregate::Filled, [ONE, TWO, ZERO]),
        (Aggregate::Sum, [TWO, ZERO, ZERO]),
        (Aggregate::Least, [TWO, ZERO, NULL]),
        (Aggregate::Greatest, [TWO, ZERO, NULL]),
    ] {
        let lines = [
            KITS,
            Line::Group {
                keys: 1,
                aggregate,
                column: 1,
                rows: 0,
            },
        ];
        let rows = [ONE, cells[0], TWO, cells[1], THREE, cells[2]];
        needs(&rt, &lines, 14, 1, (3, 2), &rows)?;
    }
    Ok(())
}

#[test]
fn total(rt: HostRuntime) -> Result<(), Fail> {
    for (aggregate, cell) in [
        (Aggregate::Rows, THREE),
        (Aggregate::Filled, TWO),
        (Aggregate::Sum, Cell::Number(12)),
        (Aggregate::Least, Cell::Number(5)),
        (Aggregate::Greatest, Cell::Number(7)),
    ] {
        let lines = [
            SHIPMENTS,
            Line::Total {
                aggregate,
                column: 1,
                rows: 0,
            },
        ];
        needs(&rt, &lines, 7, 1, (1, 1), &[cell])?;
    }
    Ok(())
}

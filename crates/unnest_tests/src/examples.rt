// The worked examples of kits and shipments.
use crate::outcomes::unnests;
use cells::sign::Sign;
use dealer::REORDER;
use lines::line::{Aggregate, Line, Side};
use std::test::Fail;

// The kits with as many shipments as column 1 says.
#[test]
fn kits_by_their_count(rt: HostRuntime) -> Result<(), Fail> {
    let shipped = Line::Compare {
        sign: Sign::Equal,
        left: Side::Column(0),
        right: Side::Column(2),
    };
    let counted = Line::Compare {
        sign: Sign::Equal,
        left: Side::Column(1),
        right: Side::Column(2),
    };
    let flat = [
        Line::Table { table: 0 },
        Line::Distinct { rows: 0 },
        Line::Table { table: 1 },
        Line::Match {
            shared: 0,
            left: 1,
            right: 2,
        },
        shipped,
        Line::Select {
            rows: 3,
            condition: 4,
        },
        Line::Group {
            keys: 2,
            aggregate: Aggregate::Rows,
            column: 0,
            rows: 5,
        },
        Line::AntiMatch {
            shared: 2,
            left: 1,
            right: 5,
        },
        Line::Extend {
            rows: 7,
            value: Side::Constant(0),
        },
        Line::Union { left: 6, right: 8 },
        Line::Match {
            shared: 2,
            left: 0,
            right: 9,
        },
        counted,
        Line::Select {
            rows: 10,
            condition: 11,
        },
        Line::Keep {
            first: 2,
            last: 0,
            rows: 12,
        },
    ];
    unnests(&rt, &REORDER, &flat)
}

// Kits with their shipments, and NULLs for those that have none.
#[test]
fn kits_with_shipments_or_nulls(rt: HostRuntime) -> Result<(), Fail> {
    let shipped = Line::Compare {
        sign: Sign::Equal,
        left: Side::Column(0),
        right: Side::Column(2),
    };
    let query = [
        Line::Table { table: 0 },
        Line::Table { table: 1 },
        shipped,
        Line::Select {
            rows: 1,
            condition: 2,
        },
        Line::ApplyOuter { left: 0, right: 3 },
    ];
    let flat = [
        Line::Table { table: 0 },
        Line::Distinct { rows: 0 },
        Line::Table { table: 1 },
        Line::Match {
            shared: 0,
            left: 1,
            right: 2,
        },
        shipped,
        Line::Select {
            rows: 3,
            condition: 4,
        },
        Line::Match {
            shared: 2,
            left: 0,
            right: 5,
        },
        Line::AntiMatch {
            shared: 2,
            left: 0,
            right: 5,
        },
        Line::Pad { nulls: 2, rows: 7 },
        Line::Union { left: 6, right: 8 },
    ];
    unnests(&rt, &query, &flat)
}

// In the empty context lines are copied, the operands first, left before right.
#[test]
fn lines_of_the_empty_context(rt: HostRuntime) -> Result<(), Fail> {
    let query = [
        Line::Table { table: 1 },
        Line::IsNull { column: 1 },
        Line::Table { table: 0 },
        Line::Select {
            rows: 2,
            condition: 1,
        },
        Line::Diff { left: 3, right: 0 },
        Line::Total {
            aggregate: Aggregate::Least,
            column: 1,
            rows: 4,
        },
    ];
    let flat = [
        Line::Table { table: 0 },
        Line::IsNull { column: 1 },
        Line::Select {
            rows: 0,
            condition: 1,
        },
        Line::Table { table: 1 },
        Line::Diff { left: 2, right: 3 },
        Line::Total {
            aggregate: Aggregate::Least,
            column: 1,
            rows: 4,
        },
    ];
    unnests(&rt, &query, &flat)
}

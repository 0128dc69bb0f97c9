// The comparisons with some and with all rows.
use crate::outcomes::unnests;
use cells::sign::Sign;
use lines::line::{Line, Side};
use std::test::Fail;

// A kit's number unequal to all numbers of shipments.
#[test]
fn unequal_to_all(rt: HostRuntime) -> Result<(), Fail> {
    let query = [
        Line::Table { table: 0 },
        Line::Table { table: 1 },
        Line::Keep {
            first: 0,
            last: 1,
            rows: 1,
        },
        Line::ApplyAll {
            sign: Sign::Unequal,
            column: 0,
            left: 0,
            right: 2,
        },
    ];
    let flat = [
        Line::Table { table: 0 },
        Line::Distinct { rows: 0 },
        Line::Table { table: 1 },
        Line::Match {
            shared: 0,
            left: 1,
            right: 2,
        },
        Line::Keep {
            first: 2,
            last: 1,
            rows: 3,
        },
        Line::Compare {
            sign: Sign::Unequal,
            left: Side::Column(0),
            right: Side::Column(2),
        },
        Line::Unknown { condition: 5 },
        Line::Not { condition: 5 },
        Line::Select {
            rows: 4,
            condition: 7,
        },
        Line::Select {
            rows: 4,
            condition: 6,
        },
        Line::SemiMatch {
            shared: 2,
            left: 0,
            right: 8,
        },
        Line::Extend {
            rows: 10,
            value: Side::Constant(0),
        },
        Line::AntiMatch {
            shared: 2,
            left: 0,
            right: 8,
        },
        Line::SemiMatch {
            shared: 2,
            left: 12,
            right: 9,
        },
        Line::Pad { nulls: 1, rows: 13 },
        Line::AntiMatch {
            shared: 2,
            left: 12,
            right: 9,
        },
        Line::Extend {
            rows: 15,
            value: Side::Constant(1),
        },
        Line::Union {
            left: 11,
            right: 14,
        },
        Line::Union {
            left: 17,
            right: 16,
        },
    ];
    unnests(&rt, &query, &flat)
}

// A kit's number equal to some number of shipments.
#[test]
fn equal_to_some(rt: HostRuntime) -> Result<(), Fail> {
    let query = [
        Line::Table { table: 0 },
        Line::Table { table: 1 },
        Line::Keep {
            first: 0,
            last: 1,
            rows: 1,
        },
        Line::ApplySome {
            sign: Sign::Equal,
            column: 1,
            left: 0,
            right: 2,
        },
    ];
    let flat = [
        Line::Table { table: 0 },
        Line::Distinct { rows: 0 },
        Line::Table { table: 1 },
        Line::Match {
            shared: 0,
            left: 1,
            right: 2,
        },
        Line::Keep {
            first: 2,
            last: 1,
            rows: 3,
        },
        Line::Compare {
            sign: Sign::Equal,
            left: Side::Column(1),
            right: Side::Column(2),
        },
        Line::Unknown { condition: 5 },
        Line::Select {
            rows: 4,
            condition: 5,
        },
        Line::Select {
            rows: 4,
            condition: 6,
        },
        Line::SemiMatch {
            shared: 2,
            left: 0,
            right: 7,
        },
        Line::Extend {
            rows: 9,
            value: Side::Constant(1),
        },
        Line::AntiMatch {
            shared: 2,
            left: 0,
            right: 7,
        },
        Line::SemiMatch {
            shared: 2,
            left: 11,
            right: 8,
        },
        Line::Pad { nulls: 1, rows: 12 },
        Line::AntiMatch {
            shared: 2,
            left: 11,
            right: 8,
        },
        Line::Extend {
            rows: 14,
            value: Side::Constant(0),
        },
        Line::Union {
            left: 10,
            right: 13,
        },
        Line::Union {
            left: 16,
            right: 15,
        },
    ];
    unnests(&rt, &query, &flat)
}

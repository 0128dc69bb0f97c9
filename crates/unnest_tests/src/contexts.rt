// Every kind of line inside one and two contexts.
use crate::outcomes::unnests;
use cells::sign::Sign;
use lines::line::{Aggregate, Line, Side};
use std::test::Fail;

// All kinds but the Applies, in a context of two columns.
#[test]
fn one_context(rt: HostRuntime) -> Result<(), Fail> {
    let small = Line::Compare {
        sign: Sign::Less,
        left: Side::Column(0),
        right: Side::Constant(7),
    };
    let query = [
        Line::Table { table: 0 },
        Line::Table { table: 1 },
        Line::Extend {
            rows: 1,
            value: Side::Column(0),
        },
        Line::IsNull { column: 1 },
        small,
        Line::And { left: 3, right: 4 },
        Line::Not { condition: 5 },
        Line::ExtendTruth {
            rows: 2,
            condition: 6,
        },
        Line::Pad { nulls: 1, rows: 7 },
        Line::Keep {
            first: 1,
            last: 2,
            rows: 8,
        },
        Line::Distinct { rows: 9 },
        Line::Table { table: 1 },
        Line::Pad { nulls: 1, rows: 11 },
        Line::Union {
            left: 10,
            right: 12,
        },
        Line::Unit,
        Line::Match {
            shared: 1,
            left: 13,
            right: 14,
        },
        Line::Group {
            keys: 1,
            aggregate: Aggregate::Sum,
            column: 3,
            rows: 15,
        },
        Line::Table { table: 1 },
        Line::Diff {
            left: 16,
            right: 17,
        },
        Line::Unit,
        Line::SemiMatch {
            shared: 1,
            left: 18,
            right: 19,
        },
        Line::Unit,
        Line::AntiMatch {
            shared: 1,
            left: 20,
            right: 21,
        },
        Line::Total {
            aggregate: Aggregate::Greatest,
            column: 2,
            rows: 22,
        },
        Line::ApplySemi { left: 0, right: 23 },
    ];
    let flat = [
        Line::Table { table: 0 },
        Line::Distinct { rows: 0 },
        Line::Table { table: 1 },
        Line::Match {
            shared: 0,
            left: 1,
            right: 2,
        },
        Line::Extend {
            rows: 3,
            value: Side::Column(0),
        },
        Line::IsNull { column: 1 },
        small,
        Line::And { left: 5, right: 6 },
        Line::Not { condition: 7 },
        Line::ExtendTruth {
            rows: 4,
            condition: 8,
        },
        Line::Pad { nulls: 1, rows: 9 },
        Line::Keep {
            first: 3,
            last: 2,
            rows: 10,
        },
        Line::Distinct { rows: 11 },
        Line::Table { table: 1 },
        Line::Match {
            shared: 0,
            left: 1,
            right: 13,
        },
        Line::Pad { nulls: 1, rows: 14 },
        Line::Union {
            left: 12,
            right: 15,
        },
        Line::Unit,
        Line::Match {
            shared: 0,
            left: 1,
            right: 17,
        },
        Line::Match {
            shared: 3,
            left: 16,
            right: 18,
        },
        Line::Group {
            keys: 3,
            aggregate: Aggregate::Sum,
            column: 3,
            rows: 19,
        },
        Line::Table { table: 1 },
        Line::Match {
            shared: 0,
            left: 1,
            right: 21,
        },
        Line::Diff {
            left: 20,
            right: 22,
        },
        Line::Unit,
        Line::Match {
            shared: 0,
            left: 1,
            right: 24,
        },
        Line::SemiMatch {
            shared: 3,
            left: 23,
            right: 25,
        },
        Line::Unit,
        Line::Match {
            shared: 0,
            left: 1,
            right: 27,
        },
        Line::AntiMatch {
            shared: 3,
            left: 26,
            right: 28,
        },
        Line::Group {
            keys: 2,
            aggregate: Aggregate::Greatest,
            column: 2,
            rows: 29,
        },
        Line::AntiMatch {
            shared: 2,
            left: 1,
            right: 29,
        },
        Line::Pad { nulls: 1, rows: 31 },
        Line::Union {
            left: 30,
            right: 32,
        },
        Line::SemiMatch {
            shared: 2,
            left: 0,
            right: 33,
        },
    ];
    unnests(&rt, &query, &flat)
}

// A context of four columns inside one of two.
#[test]
fn two_contexts(rt: HostRuntime) -> Result<(), Fail> {
    let later = Line::Compare {
        sign: Sign::More,
        left: Side::Column(4),
        right: Side::Column(2),
    };
    let query = [
        Line::Table { table: 0 },
        Line::Table { table: 1 },
        Line::Table { table: 1 },
        later,
        Line::Unknown { condition: 3 },
        Line::IsNull { column: 0 },
        Line::Or { left: 4, right: 5 },
        Line::Select {
            rows: 2,
            condition: 6,
        },
        Line::Keep {
            first: 1,
            last: 0,
            rows: 7,
        },
        Line::Total {
            aggregate: Aggregate::Filled,
            column: 4,
            rows: 8,
        },
        Line::ApplyCross { left: 1, right: 9 },
        Line::Group {
            keys: 1,
            aggregate: Aggregate::Least,
            column: 3,
            rows: 10,
        },
        Line::ApplyAnti { left: 0, right: 11 },
    ];
    let flat = [
        Line::Table { table: 0 },
        Line::Distinct { rows: 0 },
        Line::Table { table: 1 },
        Line::Match {
            shared: 0,
            left: 1,
            right: 2,
        },
        Line::Distinct { rows: 3 },
        Line::Table { table: 1 },
        Line::Match {
            shared: 0,
            left: 4,
            right: 5,
        },
        later,
        Line::Unknown { condition: 7 },
        Line::IsNull { column: 0 },
        Line::Or { left: 8, right: 9 },
        Line::Select {
            rows: 6,
            condition: 10,
        },
        Line::Keep {
            first: 5,
            last: 0,
            rows: 11,
        },
        Line::Group {
            keys: 4,
            aggregate: Aggregate::Filled,
            column: 4,
            rows: 12,
        },
        Line::AntiMatch {
            shared: 4,
            left: 4,
            right: 12,
        },
        Line::Extend {
            rows: 14,
            value: Side::Constant(0),
        },
        Line::Union {
            left: 13,
            right: 15,
        },
        Line::Match {
            shared: 4,
            left: 3,
            right: 16,
        },
        Line::Group {
            keys: 3,
            aggregate: Aggregate::Least,
            column: 3,
            rows: 17,
        },
        Line::AntiMatch {
            shared: 2,
            left: 0,
            right: 18,
        },
    ];
    unnests(&rt, &query, &flat)
}

// Some, all and semi inside an outer Apply.
#[test]
fn applies_inside_an_apply(rt: HostRuntime) -> Result<(), Fail> {
    let query = [
        Line::Table { table: 0 },
        Line::Table { table: 1 },
        Line::Unit,
        Line::ApplySome {
            sign: Sign::Less,
            column: 3,
            left: 1,
            right: 2,
        },
        Line::Unit,
        Line::ApplyAll {
            sign: Sign::AtMost,
            column: 4,
            left: 3,
            right: 4,
        },
        Line::Unit,
        Line::ApplySemi { left: 5, right: 6 },
        Line::ApplyOuter { left: 0, right: 7 },
    ];
    let flat = [
        Line::Table { table: 0 },
        Line::Distinct { rows: 0 },
        Line::Table { table: 1 },
        Line::Match {
            shared: 0,
            left: 1,
            right: 2,
        },
        Line::Distinct { rows: 3 },
        Line::Unit,
        Line::Match {
            shared: 0,
            left: 4,
            right: 5,
        },
        Line::Compare {
            sign: Sign::Less,
            left: Side::Column(3),
            right: Side::Column(4),
        },
        Line::Unknown { condition: 7 },
        Line::Select {
            rows: 6,
            condition: 7,
        },
        Line::Select {
            rows: 6,
            condition: 8,
        },
        Line::SemiMatch {
            shared: 4,
            left: 3,
            right: 9,
        },
        Line::Extend {
            rows: 11,
            value: Side::Constant(1),
        },
        Line::AntiMatch {
            shared: 4,
            left: 3,
            right: 9,
        },
        Line::SemiMatch {
            shared: 4,
            left: 13,
            right: 10,
        },
        Line::Pad { nulls: 1, rows: 14 },
        Line::AntiMatch {
            shared: 4,
            left: 13,
            right: 10,
        },
        Line::Extend {
            rows: 16,
            value: Side::Constant(0),
        },
        Line::Union {
            left: 12,
            right: 15,
        },
        Line::Union {
            left: 18,
            right: 17,
        },
        Line::Distinct { rows: 19 },
        Line::Unit,
        Line::Match {
            shared: 0,
            left: 20,
            right: 21,
        },
        Line::Compare {
            sign: Sign::AtMost,
            left: Side::Column(4),
            right: Side::Column(5),
        },
        Line::Unknown { condition: 23 },
        Line::Not { condition: 23 },
        Line::Select {
            rows: 22,
            condition: 25,
        },
        Line::Select {
            rows: 22,
            condition: 24,
        },
        Line::SemiMatch {
            shared: 5,
            left: 19,
            right: 26,
        },
        Line::Extend {
            rows: 28,
            value: Side::Constant(0),
        },
        Line::AntiMatch {
            shared: 5,
            left: 19,
            right: 26,
        },
        Line::SemiMatch {
            shared: 5,
            left: 30,
            right: 27,
        },
        Line::Pad { nulls: 1, rows: 31 },
        Line::AntiMatch {
            shared: 5,
            left: 30,
            right: 27,
        },
        Line::Extend {
            rows: 33,
            value: Side::Constant(1),
        },
        Line::Union {
            left: 29,
            right: 32,
        },
        Line::Union {
            left: 35,
            right: 34,
        },
        Line::Distinct { rows: 36 },
        Line::Unit,
        Line::Match {
            shared: 0,
            left: 37,
            right: 38,
        },
        Line::SemiMatch {
            shared: 6,
            left: 36,
            right: 39,
        },
        Line::Match {
            shared: 2,
            left: 0,
            right: 40,
        },
        Line::AntiMatch {
            shared: 2,
            left: 0,
            right: 40,
        },
        Line::Pad { nulls: 4, rows: 42 },
        Line::Union {
            left: 41,
            right: 43,
        },
    ];
    unnests(&rt, &query, &flat)
}

// Sums over columns that come from a sum.
use crate::outcomes::{passes, refused};
use lines::line::{Aggregate, Line, Side};
use std::test::Fail;

fn total(aggregate: Aggregate, column: usize, rows: usize) -> Line {
    Line::Total {
        aggregate,
        column,
        rows,
    }
}

fn table() -> Line {
    Line::Table { table: 0 }
}

#[test]
fn no_sum_over_a_sum(rt: HostRuntime) -> Result<(), Fail> {
    let sum = total(Aggregate::Sum, 0, 0);
    refused(&rt, &[table(), sum, total(Aggregate::Sum, 0, 1)], 8, 2);
    passes(&rt, &[table(), sum, total(Aggregate::Least, 0, 1)], 1)?;
    refused(
        &rt,
        &[
            table(),
            sum,
            total(Aggregate::Least, 0, 1),
            total(Aggregate::Sum, 0, 2),
        ],
        8,
        3,
    );
    refused(
        &rt,
        &[
            table(),
            sum,
            total(Aggregate::Greatest, 0, 1),
            total(Aggregate::Sum, 0, 2),
        ],
        8,
        3,
    );
    passes(
        &rt,
        &[
            table(),
            sum,
            total(Aggregate::Filled, 0, 1),
            total(Aggregate::Sum, 0, 2),
        ],
        1,
    )?;
    passes(
        &rt,
        &[
            table(),
            sum,
            total(Aggregate::Rows, 0, 1),
            total(Aggregate::Sum, 0, 2),
        ],
        1,
    )
}

#[test]
fn a_sum_through_copies(rt: HostRuntime) -> Result<(), Fail> {
    let sum = total(Aggregate::Sum, 0, 0);
    let copy = Line::Extend {
        rows: 1,
        value: Side::Column(0),
    };
    refused(
        &rt,
        &[
            table(),
            sum,
            copy,
            Line::Keep {
                first: 0,
                last: 1,
                rows: 2,
            },
            total(Aggregate::Sum, 0, 3),
        ],
        8,
        4,
    );
    let fresh = Line::Extend {
        rows: 1,
        value: Side::Constant(7),
    };
    passes(
        &rt,
        &[
            table(),
            sum,
            fresh,
            Line::Keep {
                first: 0,
                last: 1,
                rows: 2,
            },
            total(Aggregate::Sum, 0, 3),
        ],
        1,
    )?;
    // the right side of a join, behind the shared column
    let right = Line::Extend {
        rows: 1,
        value: Side::Column(0),
    };
    let join = Line::Match {
        shared: 1,
        left: 3,
        right: 2,
    };
    refused(
        &rt,
        &[
            table(),
            sum,
            right,
            table(),
            join,
            total(Aggregate::Sum, 1, 4),
        ],
        8,
        5,
    );
    passes(
        &rt,
        &[
            table(),
            sum,
            right,
            table(),
            join,
            total(Aggregate::Sum, 0, 4),
        ],
        1,
    )
}

#[test]
fn a_sum_through_a_group_key(rt: HostRuntime) -> Result<(), Fail> {
    let sum = total(Aggregate::Sum, 0, 0);
    let group = Line::Group {
        keys: 1,
        aggregate: Aggregate::Rows,
        column: 0,
        rows: 1,
    };
    refused(
        &rt,
        &[table(), sum, group, total(Aggregate::Sum, 0, 2)],
        8,
        3,
    );
    passes(&rt, &[table(), sum, group, total(Aggregate::Sum, 1, 2)], 1)?;
    let summed = Line::Group {
        keys: 1,
        aggregate: Aggregate::Sum,
        column: 0,
        rows: 0,
    };
    refused(&rt, &[table(), summed, total(Aggregate::Sum, 1, 1)], 8, 2);
    passes(&rt, &[table(), summed, total(Aggregate::Sum, 0, 1)], 1)
}

#[test]
fn a_sum_through_either_side_of_a_union(rt: HostRuntime) -> Result<(), Fail> {
    let sum = total(Aggregate::Sum, 0, 0);
    refused(
        &rt,
        &[
            table(),
            sum,
            table(),
            Line::Union { left: 2, right: 1 },
            total(Aggregate::Sum, 0, 3),
        ],
        8,
        4,
    );
    refused(
        &rt,
        &[
            table(),
            sum,
            table(),
            Line::Union { left: 1, right: 2 },
            total(Aggregate::Sum, 0, 3),
        ],
        8,
        4,
    );
    passes(
        &rt,
        &[
            table(),
            sum,
            table(),
            Line::Diff { left: 2, right: 1 },
            total(Aggregate::Sum, 0, 3),
        ],
        1,
    )
}

#[test]
fn a_sum_through_a_context_column(rt: HostRuntime) -> Result<(), Fail> {
    let sum = total(Aggregate::Sum, 0, 0);
    let apply = Line::ApplyCross { left: 1, right: 3 };
    refused(
        &rt,
        &[table(), sum, table(), total(Aggregate::Sum, 0, 2), apply],
        8,
        3,
    );
    passes(
        &rt,
        &[table(), sum, table(), total(Aggregate::Sum, 1, 2), apply],
        2,
    )?;
    // the left operand above the right one
    let apply = Line::ApplyCross { left: 3, right: 1 };
    refused(
        &rt,
        &[
            table(),
            total(Aggregate::Sum, 0, 0),
            table(),
            total(Aggregate::Sum, 0, 2),
            apply,
        ],
        8,
        1,
    );
    passes(
        &rt,
        &[
            table(),
            total(Aggregate::Sum, 1, 0),
            table(),
            total(Aggregate::Sum, 0, 2),
            apply,
        ],
        2,
    )?;
    // out of the Apply again
    let outside = total(Aggregate::Sum, 1, 4);
    refused(
        &rt,
        &[
            table(),
            total(Aggregate::Sum, 1, 0),
            table(),
            total(Aggregate::Sum, 0, 2),
            apply,
            outside,
        ],
        8,
        5,
    );
    Ok(())
}

// Contexts, long rows and the columns that lines name.
use crate::outcomes::{passes, refused};
use cells::sign::Sign;
use lines::line::{Aggregate, Line, Side};
use std::test::Fail;

#[test]
fn long_rows_have_at_most_32_columns(rt: HostRuntime) -> Result<(), Fail> {
    let wide = Line::Pad { nulls: 31, rows: 0 };
    passes(&rt, &[Line::Unit, wide], 32)?;
    refused(
        &rt,
        &[
            Line::Unit,
            wide,
            Line::Extend {
                rows: 1,
                value: Side::Column(0),
            },
        ],
        6,
        2,
    );
    // a condition has no row of its own
    passes(
        &rt,
        &[
            Line::Unit,
            wide,
            Line::IsNull { column: 31 },
            Line::Select {
                rows: 1,
                condition: 2,
            },
        ],
        32,
    )
}

#[test]
fn a_context_counts_in_the_long_row(rt: HostRuntime) -> Result<(), Fail> {
    passes(
        &rt,
        &[
            Line::Unit,
            Line::Pad { nulls: 30, rows: 0 },
            Line::Unit,
            Line::ApplySemi { left: 1, right: 2 },
        ],
        31,
    )?;
    refused(
        &rt,
        &[
            Line::Unit,
            Line::Pad { nulls: 31, rows: 0 },
            Line::Unit,
            Line::ApplySemi { left: 1, right: 2 },
        ],
        6,
        2,
    );
    // contexts of two Applies
    let apply = Line::ApplySemi { left: 2, right: 3 };
    let outer = Line::ApplySemi { left: 1, right: 4 };
    passes(
        &rt,
        &[
            Line::Unit,
            Line::Pad { nulls: 29, rows: 0 },
            Line::Unit,
            Line::Unit,
            apply,
            outer,
        ],
        30,
    )?;
    refused(
        &rt,
        &[
            Line::Unit,
            Line::Pad { nulls: 30, rows: 0 },
            Line::Unit,
            Line::Unit,
            apply,
            outer,
        ],
        6,
        3,
    );
    Ok(())
}

#[test]
fn columns_lie_in_the_long_row(rt: HostRuntime) -> Result<(), Fail> {
    passes(
        &rt,
        &[
            Line::Unit,
            Line::Extend {
                rows: 0,
                value: Side::Column(0),
            },
        ],
        2,
    )?;
    refused(
        &rt,
        &[
            Line::Unit,
            Line::Extend {
                rows: 0,
                value: Side::Column(1),
            },
        ],
        7,
        1,
    );
    refused(
        &rt,
        &[
            Line::Unit,
            Line::Total {
                aggregate: Aggregate::Rows,
                column: 1,
                rows: 0,
            },
        ],
        7,
        1,
    );
    refused(
        &rt,
        &[
            Line::Unit,
            Line::Group {
                keys: 1,
                aggregate: Aggregate::Filled,
                column: 1,
                rows: 0,
            },
        ],
        7,
        1,
    );
    refused(
        &rt,
        &[
            Line::Unit,
            Line::IsNull { column: 1 },
            Line::Select {
                rows: 0,
                condition: 1,
            },
        ],
        7,
        1,
    );
    let compare = Line::Compare {
        sign: Sign::Less,
        left: Side::Column(0),
        right: Side::Column(1),
    };
    refused(
        &rt,
        &[
            Line::Unit,
            compare,
            Line::ExtendTruth {
                rows: 0,
                condition: 1,
            },
        ],
        7,
        1,
    );
    refused(
        &rt,
        &[
            Line::Unit,
            Line::Unit,
            Line::ApplySome {
                sign: Sign::Less,
                column: 1,
                left: 0,
                right: 1,
            },
        ],
        7,
        2,
    );
    Ok(())
}

#[test]
fn a_context_column_is_named_in_front(rt: HostRuntime) -> Result<(), Fail> {
    let apply = Line::ApplyCross { left: 0, right: 2 };
    passes(
        &rt,
        &[
            Line::Unit,
            Line::Unit,
            Line::Extend {
                rows: 1,
                value: Side::Column(1),
            },
            apply,
        ],
        3,
    )?;
    refused(
        &rt,
        &[
            Line::Unit,
            Line::Unit,
            Line::Extend {
                rows: 1,
                value: Side::Column(2),
            },
            apply,
        ],
        7,
        2,
    );
    // a condition inside the Apply
    let select = Line::Select {
        rows: 1,
        condition: 2,
    };
    let apply = Line::ApplyOuter { left: 0, right: 3 };
    passes(
        &rt,
        &[
            Line::Unit,
            Line::Unit,
            Line::IsNull { column: 1 },
            select,
            apply,
        ],
        2,
    )?;
    refused(
        &rt,
        &[
            Line::Unit,
            Line::Unit,
            Line::IsNull { column: 2 },
            select,
            apply,
        ],
        7,
        2,
    );
    Ok(())
}

#[test]
fn the_left_operand_may_be_the_higher_line(rt: HostRuntime) -> Result<(), Fail> {
    let left = Line::Extend {
        rows: 2,
        value: Side::Constant(5),
    };
    let apply = Line::ApplyCross { left: 3, right: 1 };
    passes(
        &rt,
        &[
            Line::Unit,
            Line::Extend {
                rows: 0,
                value: Side::Column(2),
            },
            Line::Unit,
            left,
            apply,
        ],
        4,
    )?;
    refused(
        &rt,
        &[
            Line::Unit,
            Line::Extend {
                rows: 0,
                value: Side::Column(3),
            },
            Line::Unit,
            left,
            apply,
        ],
        7,
        1,
    );
    Ok(())
}

// Tables, widths, counts and constants.
use crate::outcomes::{passes, refused};
use cells::sign::Sign;
use lines::line::{Aggregate, Line, Side};
use std::test::Fail;

#[test]
fn tables_are_known(rt: HostRuntime) -> Result<(), Fail> {
    passes(&rt, &[Line::Table { table: 1 }], 1)?;
    refused(&rt, &[Line::Table { table: 2 }], 4, 0);
    refused(
        &rt,
        &[
            Line::Unit,
            Line::Table { table: usize::MAX },
            Line::Union { left: 0, right: 1 },
        ],
        4,
        1,
    );
    Ok(())
}

#[test]
fn keep_takes_some_of_the_columns(rt: HostRuntime) -> Result<(), Fail> {
    refused(
        &rt,
        &[
            Line::Unit,
            Line::Keep {
                first: 0,
                last: 0,
                rows: 0,
            },
        ],
        5,
        1,
    );
    refused(
        &rt,
        &[
            Line::Unit,
            Line::Keep {
                first: 1,
                last: 1,
                rows: 0,
            },
        ],
        5,
        1,
    );
    passes(
        &rt,
        &[
            Line::Unit,
            Line::Keep {
                first: 0,
                last: 1,
                rows: 0,
            },
        ],
        1,
    )?;
    passes(
        &rt,
        &[
            Line::Unit,
            Line::Pad { nulls: 2, rows: 0 },
            Line::Keep {
                first: 2,
                last: 1,
                rows: 1,
            },
        ],
        3,
    )
}

#[test]
fn the_largest_counts_are_refused(rt: HostRuntime) {
    let most = usize::MAX;
    refused(
        &rt,
        &[
            Line::Unit,
            Line::Keep {
                first: most,
                last: most,
                rows: 0,
            },
        ],
        5,
        1,
    );
    refused(
        &rt,
        &[
            Line::Unit,
            Line::Keep {
                first: most,
                last: 2,
                rows: 0,
            },
        ],
        5,
        1,
    );
    refused(
        &rt,
        &[
            Line::Unit,
            Line::Keep {
                first: 2,
                last: most,
                rows: 0,
            },
        ],
        5,
        1,
    );
    refused(
        &rt,
        &[
            Line::Unit,
            Line::Pad {
                nulls: most,
                rows: 0,
            },
        ],
        5,
        1,
    );
    refused(
        &rt,
        &[
            Line::Unit,
            Line::Unit,
            Line::Match {
                shared: most,
                left: 0,
                right: 1,
            },
        ],
        5,
        2,
    );
    refused(
        &rt,
        &[
            Line::Unit,
            Line::Group {
                keys: most,
                aggregate: Aggregate::Rows,
                column: 0,
                rows: 0,
            },
        ],
        5,
        1,
    );
}

#[test]
fn pad_adds_1_to_31_columns(rt: HostRuntime) -> Result<(), Fail> {
    refused(&rt, &[Line::Unit, Line::Pad { nulls: 0, rows: 0 }], 5, 1);
    passes(&rt, &[Line::Unit, Line::Pad { nulls: 1, rows: 0 }], 2)?;
    passes(&rt, &[Line::Unit, Line::Pad { nulls: 31, rows: 0 }], 32)?;
    refused(&rt, &[Line::Unit, Line::Pad { nulls: 32, rows: 0 }], 5, 1);
    Ok(())
}

#[test]
fn matches_share_columns_of_both_sides(rt: HostRuntime) -> Result<(), Fail> {
    passes(
        &rt,
        &[
            Line::Unit,
            Line::Unit,
            Line::Match {
                shared: 0,
                left: 0,
                right: 1,
            },
        ],
        2,
    )?;
    passes(
        &rt,
        &[
            Line::Unit,
            Line::Unit,
            Line::Match {
                shared: 1,
                left: 0,
                right: 1,
            },
        ],
        1,
    )?;
    refused(
        &rt,
        &[
            Line::Unit,
            Line::Unit,
            Line::Match {
                shared: 2,
                left: 0,
                right: 1,
            },
        ],
        5,
        2,
    );
    refused(
        &rt,
        &[
            Line::Unit,
            Line::Unit,
            Line::SemiMatch {
                shared: 2,
                left: 0,
                right: 1,
            },
        ],
        5,
        2,
    );
    let wide = Line::Pad { nulls: 1, rows: 0 };
    refused(
        &rt,
        &[
            Line::Unit,
            wide,
            Line::Unit,
            Line::AntiMatch {
                shared: 2,
                left: 1,
                right: 2,
            },
        ],
        5,
        3,
    );
    refused(
        &rt,
        &[
            Line::Unit,
            wide,
            Line::Unit,
            Line::AntiMatch {
                shared: 2,
                left: 2,
                right: 1,
            },
        ],
        5,
        3,
    );
    Ok(())
}

#[test]
fn widths_agree(rt: HostRuntime) -> Result<(), Fail> {
    let wide = Line::Pad { nulls: 1, rows: 0 };
    refused(
        &rt,
        &[
            Line::Unit,
            wide,
            Line::Unit,
            Line::Union { left: 1, right: 2 },
        ],
        5,
        3,
    );
    refused(
        &rt,
        &[
            Line::Unit,
            wide,
            Line::Unit,
            Line::Diff { left: 2, right: 1 },
        ],
        5,
        3,
    );
    let quantified = Line::ApplySome {
        sign: Sign::Equal,
        column: 0,
        left: 2,
        right: 1,
    };
    refused(&rt, &[Line::Unit, wide, Line::Unit, quantified], 5, 3);
    passes(
        &rt,
        &[
            Line::Unit,
            Line::Unit,
            Line::ApplyAll {
                sign: Sign::Less,
                column: 0,
                left: 1,
                right: 0,
            },
        ],
        2,
    )
}

#[test]
fn groups_have_1_to_all_columns(rt: HostRuntime) -> Result<(), Fail> {
    refused(
        &rt,
        &[
            Line::Unit,
            Line::Group {
                keys: 0,
                aggregate: Aggregate::Rows,
                column: 0,
                rows: 0,
            },
        ],
        5,
        1,
    );
    passes(
        &rt,
        &[
            Line::Unit,
            Line::Group {
                keys: 1,
                aggregate: Aggregate::Rows,
                column: 0,
                rows: 0,
            },
        ],
        2,
    )?;
    refused(
        &rt,
        &[
            Line::Unit,
            Line::Group {
                keys: 2,
                aggregate: Aggregate::Rows,
                column: 0,
                rows: 0,
            },
        ],
        5,
        1,
    );
    Ok(())
}

#[test]
fn constants_are_stored_numbers(rt: HostRuntime) -> Result<(), Fail> {
    passes(
        &rt,
        &[
            Line::Unit,
            Line::Extend {
                rows: 0,
                value: Side::Constant(2147483647),
            },
        ],
        2,
    )?;
    refused(
        &rt,
        &[
            Line::Unit,
            Line::Extend {
                rows: 0,
                value: Side::Constant(2147483648),
            },
        ],
        5,
        1,
    );
    let least = Line::Compare {
        sign: Sign::More,
        left: Side::Column(0),
        right: Side::Constant(-2147483648),
    };
    passes(
        &rt,
        &[
            Line::Unit,
            least,
            Line::Select {
                rows: 0,
                condition: 1,
            },
        ],
        1,
    )?;
    let below = Line::Compare {
        sign: Sign::More,
        left: Side::Column(0),
        right: Side::Constant(-2147483649),
    };
    refused(
        &rt,
        &[
            Line::Unit,
            below,
            Line::Select {
                rows: 0,
                condition: 1,
            },
        ],
        5,
        1,
    );
    Ok(())
}

// Two causes at once: the lower number, and for one number the lower line.
use crate::outcomes::refused;
use lines::line::{Aggregate, Line, Side};

#[test]
fn the_lower_line_of_one_number(rt: HostRuntime) {
    refused(
        &rt,
        &[Line::Distinct { rows: 0 }, Line::Distinct { rows: 1 }],
        2,
        0,
    );
    let none = Line::Keep {
        first: 0,
        last: 0,
        rows: 0,
    };
    refused(
        &rt,
        &[Line::Unit, none, Line::Pad { nulls: 0, rows: 1 }],
        5,
        1,
    );
}

#[test]
fn the_lower_number_in_both_line_orders(rt: HostRuntime) {
    let far = Side::Column(9);
    let none = Line::Pad { nulls: 0, rows: 0 };
    refused(
        &rt,
        &[
            Line::Unit,
            none,
            Line::Extend {
                rows: 1,
                value: far,
            },
        ],
        5,
        1,
    );
    refused(
        &rt,
        &[
            Line::Unit,
            Line::Extend {
                rows: 0,
                value: far,
            },
            Line::Pad { nulls: 0, rows: 1 },
        ],
        5,
        2,
    );
    let wide = Line::Pad { nulls: 31, rows: 0 };
    refused(
        &rt,
        &[
            Line::Unit,
            wide,
            Line::Extend {
                rows: 1,
                value: Side::Column(32),
            },
        ],
        6,
        2,
    );
    refused(
        &rt,
        &[
            Line::Unit,
            Line::Extend {
                rows: 0,
                value: far,
            },
            Line::Pad { nulls: 31, rows: 1 },
        ],
        6,
        2,
    );
    refused(
        &rt,
        &[
            Line::Unit,
            Line::Pad { nulls: 31, rows: 0 },
            Line::Pad { nulls: 1, rows: 1 },
            Line::Extend {
                rows: 2,
                value: Side::Column(40),
            },
        ],
        6,
        2,
    );
}

#[test]
fn tables_before_widths_and_columns_before_sums(rt: HostRuntime) {
    let unknown = Line::Table { table: 7 };
    refused(&rt, &[unknown, Line::Pad { nulls: 0, rows: 0 }], 4, 0);
    refused(
        &rt,
        &[
            Line::Unit,
            Line::Pad { nulls: 0, rows: 0 },
            unknown,
            Line::Union { left: 1, right: 2 },
        ],
        4,
        2,
    );
    let sum = Line::Total {
        aggregate: Aggregate::Sum,
        column: 0,
        rows: 0,
    };
    let again = Line::Total {
        aggregate: Aggregate::Sum,
        column: 0,
        rows: 1,
    };
    refused(
        &rt,
        &[
            Line::Unit,
            sum,
            again,
            Line::Extend {
                rows: 2,
                value: Side::Column(1),
            },
        ],
        7,
        3,
    );
    let astray = Line::Extend {
        rows: 0,
        value: Side::Column(1),
    };
    let first = Line::Total {
        aggregate: Aggregate::Sum,
        column: 0,
        rows: 1,
    };
    refused(
        &rt,
        &[
            Line::Unit,
            astray,
            first,
            Line::Total {
                aggregate: Aggregate::Sum,
                column: 0,
                rows: 2,
            },
        ],
        7,
        1,
    );
}

#[test]
fn reads_before_tables_and_counts_before_reads(rt: HostRuntime) {
    refused(&rt, &[Line::Table { table: 7 }, Line::Unit], 3, 0);
    refused(&rt, &[Line::Unit, Line::Table { table: 7 }], 3, 0);
    refused(&rt, &[Line::Unit, Line::Distinct { rows: 5 }], 2, 1);
    refused(&rt, &[Line::Distinct { rows: 7 }; 33], 1, 33);
}

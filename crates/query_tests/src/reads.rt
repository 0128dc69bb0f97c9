// How many lines, and how they read one another.
use crate::outcomes::{passes, refused};
use lines::line::Line;
use std::test::Fail;

#[test]
fn one_to_32_lines(rt: HostRuntime) -> Result<(), Fail> {
    refused(&rt, &[], 1, 0);
    passes(&rt, &[Line::Unit], 1)?;
    let mut lines = [Line::Unit; 32];
    for (rows, line) in lines[1..].iter_mut().enumerate() {
        *line = Line::Distinct { rows };
    }
    passes(&rt, &lines, 1)
}

#[test]
fn not_33_lines(rt: HostRuntime) {
    let mut lines = [Line::Unit; 33];
    for (rows, line) in lines[1..].iter_mut().enumerate() {
        *line = Line::Distinct { rows };
    }
    refused(&rt, &lines, 1, 33);
}

#[test]
fn operands_are_lower(rt: HostRuntime) -> Result<(), Fail> {
    refused(&rt, &[Line::Distinct { rows: 0 }], 2, 0);
    refused(&rt, &[Line::Unit, Line::Distinct { rows: 1 }], 2, 1);
    refused(&rt, &[Line::Unit, Line::Distinct { rows: 2 }], 2, 1);
    refused(
        &rt,
        &[Line::Unit, Line::Distinct { rows: usize::MAX }],
        2,
        1,
    );
    passes(&rt, &[Line::Unit, Line::Distinct { rows: 0 }], 1)
}

#[test]
fn rows_and_conditions_are_not_confused(rt: HostRuntime) -> Result<(), Fail> {
    let test = Line::IsNull { column: 0 };
    refused(
        &rt,
        &[
            Line::Unit,
            test,
            Line::Select {
                rows: 1,
                condition: 0,
            },
        ],
        2,
        2,
    );
    refused(&rt, &[Line::Unit, Line::Not { condition: 0 }], 2, 1);
    refused(&rt, &[test, Line::Distinct { rows: 0 }], 2, 1);
    passes(
        &rt,
        &[
            Line::Unit,
            test,
            Line::Select {
                rows: 0,
                condition: 1,
            },
        ],
        1,
    )?;
    passes(
        &rt,
        &[
            test,
            Line::Not { condition: 0 },
            Line::Unit,
            Line::Select {
                rows: 2,
                condition: 1,
            },
        ],
        1,
    )
}

#[test]
fn every_line_but_the_last_is_read_once(rt: HostRuntime) -> Result<(), Fail> {
    refused(&rt, &[Line::Unit, Line::Unit], 3, 0);
    refused(&rt, &[Line::Unit, Line::Union { left: 0, right: 0 }], 3, 0);
    refused(
        &rt,
        &[
            Line::Unit,
            Line::Distinct { rows: 0 },
            Line::Union { left: 0, right: 1 },
        ],
        3,
        0,
    );
    refused(&rt, &[Line::IsNull { column: 0 }], 3, 0);
    passes(
        &rt,
        &[Line::Unit, Line::Unit, Line::Union { left: 0, right: 1 }],
        1,
    )
}

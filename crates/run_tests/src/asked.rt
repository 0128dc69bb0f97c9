// Nested reading with its exact need.
use crate::outcomes::{KITS, NULL, ONE, SHIPMENTS, THREE, TWO, ZERO, asks, refused};
use cells::sign::Sign;
use dealer::REORDER;
use evaluate::ask::ask;
use lines::line::{Line, Side};
use query::query::Query;
use std::test::Fail;
use stock::ruler::Ruler;

// The table is laid, and its rows once more as the line's result.
#[test]
fn one_table_needs_twice_its_cells(rt: HostRuntime) -> Result<(), Fail> {
    let kits = [ONE, TWO, TWO, ZERO, TWO, ZERO, THREE, NULL];
    asks(&rt, &[KITS], 16, 0, (4, 2), &kits)
}

#[test]
fn a_table_read_by_two_lines_is_laid_twice(rt: HostRuntime) -> Result<(), Fail> {
    let lines = [KITS, KITS, Line::Union { left: 0, right: 1 }];
    let kits = [
        ONE, TWO, TWO, ZERO, TWO, ZERO, THREE, NULL, ONE, TWO, TWO, ZERO, TWO, ZERO, THREE, NULL,
    ];
    asks(&rt, &lines, 48, 2, (8, 2), &kits)
}

// The moments are 8, 14, 22, then for each kit those of its count: 28, 32, 27, 26; 31, 31, 26, 29; 34, 34, 29, 32; 37, 39, 34, 35; then 35, 29.
#[test]
fn kits_by_their_count(rt: HostRuntime) -> Result<(), Fail> {
    asks(
        &rt,
        &REORDER,
        39,
        3,
        (3, 2),
        &[ONE, TWO, TWO, ZERO, TWO, ZERO],
    )
}

// Three tables are laid in 20 cells. In the last kit's last shipment's turn the innermost Apply gathers over 54 cells.
#[test]
fn an_apply_inside_an_apply_inside_an_apply(rt: HostRuntime) -> Result<(), Fail> {
    let lines = [
        KITS,
        SHIPMENTS,
        SHIPMENTS,
        Line::Unit,
        Line::ApplySemi { left: 2, right: 3 },
        Line::ApplySemi { left: 1, right: 4 },
        Line::ApplySemi { left: 0, right: 5 },
    ];
    let kits = [ONE, TWO, TWO, ZERO, TWO, ZERO, THREE, NULL];
    asks(&rt, &lines, 57, 4, (4, 2), &kits)
}

// The right operand is never read.
#[test]
fn an_apply_over_no_left_rows(rt: HostRuntime) -> Result<(), Fail> {
    let none = Line::Compare {
        sign: Sign::Equal,
        left: Side::Column(1),
        right: Side::Constant(9),
    };
    let lines = [
        KITS,
        none,
        Line::Select {
            rows: 0,
            condition: 1,
        },
        SHIPMENTS,
        Line::ApplyCross { left: 2, right: 3 },
    ];
    asks(&rt, &lines, 22, 0, (0, 4), &[])
}

#[test]
fn the_limits_of_lent_cells(rt: HostRuntime) -> Result<(), Fail> {
    let empty = Ruler::of(0);
    let query = Query::check(&[KITS], &empty)?;
    assert_eq!(rt; ask(&empty, &query, &mut []), Ok((0, 1)));
    let mut more = vec![in rt.alloc(); ONE; 65537]?;
    refused(&rt, ask(&empty, &query, &mut more), 11, 0);
    Ok(())
}

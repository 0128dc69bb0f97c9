// A shelf's check at its edges, and rulers and pairs.
use crate::outcomes::{holds, refused};
use cells::cell::Cell;
use shelf::shelf::Shelf;
use std::test::Fail;
use stock::pair::Pair;
use stock::ruler::Ruler;
use stock::stock::Stock;

const NINE: [Cell; 9] = [Cell::Null; 9];

#[test]
fn widths_from_one_to_eight(rt: HostRuntime) {
    refused(&rt, Shelf::check(&[], &[(0, 0)]), 16, 0);
    assert_eq!(rt; Shelf::check(&NINE, &[(1, 9)]), Ok(1));
    assert_eq!(rt; Shelf::check(&NINE[0..8], &[(8, 1)]), Ok(1));
    refused(&rt, Shelf::check(&NINE, &[(9, 1)]), 16, 0);
    refused(&rt, Shelf::check(&NINE, &[(1, 9), (0, 1)]), 16, 1);
}

#[test]
fn at_most_sixteen_pairs(rt: HostRuntime) {
    assert_eq!(rt; Shelf::check(&[], &[]), Ok(0));
    assert_eq!(rt; Shelf::check(&[], &[(1, 0); 16]), Ok(16));
    refused(&rt, Shelf::check(&[], &[(1, 0); 17]), 16, 16);
    // an earlier table at fault comes first
    let mut pairs = [(1, 0); 17];
    pairs[3] = (9, 0);
    refused(&rt, Shelf::check(&[], &pairs), 16, 3);
}

#[test]
fn too_few_and_left_over_cells(rt: HostRuntime) {
    refused(&rt, Shelf::check(&NINE, &[(2, 5)]), 16, 0);
    refused(&rt, Shelf::check(&NINE, &[(2, 4), (1, 2)]), 16, 1);
    refused(&rt, Shelf::check(&NINE, &[(2, 4)]), 16, 0);
    refused(&rt, Shelf::check(&NINE, &[(2, 2), (2, 2)]), 16, 1);
    refused(&rt, Shelf::check(&NINE, &[]), 16, 0);
    refused(&rt, Shelf::check(&NINE, &[(8, usize::MAX)]), 16, 0);
}

#[test]
fn numbers_of_the_stored_range(rt: HostRuntime) {
    for (z, passes) in [
        (2147483647, true),
        (2147483648, false),
        (-2147483648, true),
        (-2147483649, false),
    ] {
        let cells = [Cell::Null, Cell::Number(z)];
        if passes {
            assert_eq!(rt; Shelf::check(&cells, &[(1, 1), (1, 1)]), Ok(2));
        } else {
            refused(&rt, Shelf::check(&cells, &[(1, 1), (1, 1)]), 16, 1);
        }
    }
}

#[test]
fn at_most_65535_rows(rt: HostRuntime) -> Result<(), Fail> {
    let cells = vec![in rt.alloc(); Cell::Null; 65536]?;
    assert!(rt; cells.len() == 65536);
    assert_eq!(rt; Shelf::check(&cells[0..65535], &[(1, 65535)]), Ok(1));
    refused(&rt, Shelf::check(&cells[0..65536], &[(1, 65536)]), 16, 0);
    Ok(())
}

#[test]
fn a_failed_shelf_has_no_tables(rt: HostRuntime) {
    let failed = Shelf::of(&NINE, &[(2, 4)]);
    assert_eq!(rt; failed.table_count(), 0);
    assert_eq!(rt; failed.width(0), 0);
    assert_eq!(rt; failed.row_count(0), 0);
    assert_eq!(rt; failed.cell(0, 0, 0), Cell::Null);
}

#[test]
fn outside_a_shelf(rt: HostRuntime) {
    let cells = [
        Cell::Number(1),
        Cell::Number(2),
        Cell::Number(3),
        Cell::Number(4),
    ];
    let stock = Shelf::of(&cells, &[(2, 2)]);
    assert_eq!(rt; stock.table_count(), 1);
    assert_eq!(rt; stock.cell(0, 1, 0), Cell::Number(3));
    assert_eq!(rt; stock.cell(0, 0, 2), Cell::Null);
    assert_eq!(rt; stock.cell(0, 2, 0), Cell::Null);
    assert_eq!(rt; stock.cell(1, 0, 0), Cell::Null);
    assert_eq!(rt; stock.width(1), 0);
    assert_eq!(rt; stock.row_count(usize::MAX), 0);
}

#[test]
fn rulers(rt: HostRuntime) {
    holds(&rt, &Ruler::of(0), 0, &[]);
    holds(
        &rt,
        &Ruler::of(3),
        0,
        &[Cell::Number(0), Cell::Number(1), Cell::Number(2)],
    );
    assert_eq!(rt; Ruler::of(65535).row_count(0), 65535);
    assert_eq!(rt; Ruler::of(65535).cell(0, 65534, 0), Cell::Number(65534));
}

#[test]
fn pairs_show_sixteen_tables(rt: HostRuntime) {
    let nine = Shelf::of(&[], &[(2, 0); 9]);
    let eight = Shelf::of(&[], &[(3, 0); 8]);
    let pair = Pair::of(&nine, &eight);
    assert_eq!(rt; pair.table_count(), 16);
    assert_eq!(rt; pair.width(8), 2);
    assert_eq!(rt; pair.width(9), 3);
    assert_eq!(rt; pair.width(15), 3);
    assert_eq!(rt; pair.width(16), 0);
    let ruler = Ruler::of(2);
    holds(
        &rt,
        &Pair::of(&ruler, &nine),
        0,
        &[Cell::Number(0), Cell::Number(1)],
    );
}

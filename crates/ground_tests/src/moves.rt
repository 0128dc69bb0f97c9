// Movements at their limits, and layers over layers.
use crate::outcomes::{holds, refused};
use cells::cell::Cell;
use movements::movements::Movements;
use shelf::shelf::Shelf;
use stock::pair::Pair;
use stock::ruler::Ruler;
use stock::stock::Stock;

#[test]
fn the_64th_add_passes_and_the_65th_does_not(rt: HostRuntime) {
    let mut layer = Movements::over(Ruler::of(2));
    for n in 0..64 {
        assert_eq!(rt; layer.add(0, &[Cell::Null]), Ok(n + 3));
    }
    refused(&rt, layer.add(0, &[Cell::Null]), 15, 0);
    // a withdrawn added row frees its room, a withdrawn row below does not
    assert_eq!(rt; layer.withdraw(0, 0), Ok(65));
    refused(&rt, layer.add(0, &[Cell::Null]), 15, 0);
    assert_eq!(rt; layer.withdraw(0, 64), Ok(64));
    assert_eq!(rt; layer.add(0, &[Cell::Number(7)]), Ok(65));
    refused(&rt, layer.add(0, &[Cell::Null]), 15, 0);
    assert_eq!(rt; layer.cell(0, 64, 0), Cell::Number(7));
}

#[test]
fn at_most_64_rows_are_hidden(rt: HostRuntime) {
    let mut layer = Movements::over(Ruler::of(70));
    for n in 0..64 {
        assert_eq!(rt; layer.withdraw(0, 2), Ok(69 - n));
    }
    refused(&rt, layer.withdraw(0, 5), 15, 0);
    refused(&rt, layer.withdraw(0, 6), 13, 0);
    assert_eq!(rt; layer.add(0, &[Cell::Null]), Ok(7));
    // an added row is struck out even then
    assert_eq!(rt; layer.withdraw(0, 6), Ok(6));
    holds(
        &rt,
        &layer,
        0,
        &[
            Cell::Number(0),
            Cell::Number(1),
            Cell::Number(66),
            Cell::Number(67),
            Cell::Number(68),
            Cell::Number(69),
        ],
    );
    layer.clear();
    assert_eq!(rt; layer.row_count(0), 70);
    assert_eq!(rt; layer.withdraw(0, 0), Ok(69));
}

#[test]
fn a_table_shows_at_most_65535_rows(rt: HostRuntime) {
    let mut layer = Movements::over(Ruler::of(65534));
    assert_eq!(rt; layer.add(0, &[Cell::Null]), Ok(65535));
    refused(&rt, layer.add(0, &[Cell::Null]), 15, 0);
    assert_eq!(rt; layer.row_count(0), 65535);
    assert_eq!(rt; layer.withdraw(0, 0), Ok(65534));
    assert_eq!(rt; layer.add(0, &[Cell::Number(5)]), Ok(65535));
    assert_eq!(rt; layer.cell(0, 65533, 0), Cell::Null);
    assert_eq!(rt; layer.cell(0, 65534, 0), Cell::Number(5));
    layer.clear();
    assert_eq!(rt; layer.row_count(0), 65534);
}

#[test]
fn refusals_in_rising_order(rt: HostRuntime) {
    let mut layer = Movements::over(Shelf::of(&[Cell::Null; 4], &[(2, 2)]));
    let wide = Cell::Number(2147483648);
    let low = Cell::Number(-2147483649);
    refused(&rt, layer.add(1, &[]), 13, 0);
    refused(&rt, layer.add(0, &[]), 14, 0);
    refused(&rt, layer.add(0, &[wide, Cell::Null, Cell::Null]), 14, 3);
    refused(&rt, layer.add(0, &[Cell::Null, wide]), 14, 1);
    refused(&rt, layer.add(0, &[low, wide]), 14, 0);
    refused(&rt, layer.withdraw(0, 2), 13, 0);
    refused(&rt, layer.withdraw(1, 0), 13, 0);
    assert_eq!(rt; layer.row_count(0), 2);
    let most = Cell::Number(2147483647);
    let least = Cell::Number(-2147483648);
    assert_eq!(rt; layer.add(0, &[most, least]), Ok(3));
    for n in 0..63 {
        assert_eq!(rt; layer.add(0, &[Cell::Null, Cell::Null]), Ok(n + 4));
    }
    // of several causes the lowest number comes back
    refused(&rt, layer.add(1, &[wide]), 13, 0);
    refused(&rt, layer.add(0, &[wide, Cell::Null]), 14, 0);
    refused(&rt, layer.add(0, &[Cell::Null, Cell::Null]), 15, 0);
}

#[test]
fn withdrawals_count_places_as_shown(rt: HostRuntime) {
    let mut layer = Movements::over(Ruler::of(5));
    assert_eq!(rt; layer.add(0, &[Cell::Number(50)]), Ok(6));
    assert_eq!(rt; layer.add(0, &[Cell::Number(60)]), Ok(7));
    assert_eq!(rt; layer.withdraw(0, 1), Ok(6));
    assert_eq!(rt; layer.withdraw(0, 1), Ok(5));
    assert_eq!(rt; layer.withdraw(0, 3), Ok(4));
    holds(
        &rt,
        &layer,
        0,
        &[
            Cell::Number(0),
            Cell::Number(3),
            Cell::Number(4),
            Cell::Number(60),
        ],
    );
    layer.clear();
    holds(
        &rt,
        &layer,
        0,
        &[
            Cell::Number(0),
            Cell::Number(1),
            Cell::Number(2),
            Cell::Number(3),
            Cell::Number(4),
        ],
    );
}

#[test]
fn three_layers_over_a_pair(rt: HostRuntime) {
    let cells = [Cell::Number(10), Cell::Number(20)];
    let mut first = Movements::over(Pair::of(Shelf::of(&cells, &[(1, 2)]), Ruler::of(3)));
    assert_eq!(rt; first.add(0, &[Cell::Number(30)]), Ok(3));
    assert_eq!(rt; first.withdraw(1, 0), Ok(2));
    let mut second = Movements::over(first);
    // a row that a lower layer added is a row below for an upper one
    assert_eq!(rt; second.withdraw(0, 2), Ok(2));
    assert_eq!(rt; second.add(1, &[Cell::Null]), Ok(3));
    let mut third = Movements::over(second);
    assert_eq!(rt; third.withdraw(1, 0), Ok(2));
    assert_eq!(rt; third.add(0, &[Cell::Number(40)]), Ok(3));
    holds(
        &rt,
        &third,
        0,
        &[Cell::Number(10), Cell::Number(20), Cell::Number(40)],
    );
    holds(&rt, &third, 1, &[Cell::Number(2), Cell::Null]);
    third.clear();
    holds(&rt, &third, 0, &[Cell::Number(10), Cell::Number(20)]);
    holds(
        &rt,
        &third,
        1,
        &[Cell::Number(1), Cell::Number(2), Cell::Null],
    );
}

// One session through all its calls, refused ones among them.
use crate::outcomes::{both, refused};
use cells::cell::Cell;
use dealer::{KITS_AND_SHIPMENTS, REORDER, TABLES};
use lines::line::Line;
use session::session::Session;
use shelf::shelf::Shelf;

const ONE: Cell = Cell::Number(1);

const TWO: Cell = Cell::Number(2);

#[test]
fn nothing_stands_at_the_opening(rt: HostRuntime) {
    let mut session = Session::open(Shelf::of(&KITS_AND_SHIPMENTS, &TABLES));
    let mut cells = [Cell::Number(9); 4];
    refused(&rt, session.unnest(), 9, 0);
    refused(&rt, session.ask(&mut cells), 9, 0);
    refused(&rt, session.run(&mut cells), 9, 0);
    assert_eq!(rt; cells[3], Cell::Number(9));
    assert_eq!(rt; session.lay(&REORDER), Ok((9, 2)));
    refused(&rt, session.run(&mut cells), 9, 0);
    assert_eq!(rt; cells[3], Cell::Number(9));
}

#[test]
fn lay_unnest_ask_and_run(rt: HostRuntime) {
    let mut session = Session::open(Shelf::of(&KITS_AND_SHIPMENTS, &TABLES));
    assert_eq!(rt; session.lay(&REORDER), Ok((9, 2)));
    assert_eq!(rt; session.unnest(), Ok(14));
    assert_eq!(rt; session.unnest(), Ok(14));
    both(&rt, &session, 3, ONE);
    // a refused lay keeps query and plan
    refused(&rt, session.lay(&[]), 1, 0);
    refused(&rt, session.lay(&[Line::Table { table: 2 }]), 4, 0);
    both(&rt, &session, 3, ONE);
    // the cells run out at the same lines as without a session
    let mut cells = [Cell::Number(9); 38];
    refused(&rt, session.ask(&mut cells), 12, 3);
    assert_eq!(rt; (cells[0], cells[37]), (Cell::Null, Cell::Null));
    // an accepted lay drops the plan
    assert_eq!(rt; session.lay(&REORDER), Ok((9, 2)));
    refused(&rt, session.run(&mut cells), 9, 0);
}

#[test]
fn movements_change_the_answer(rt: HostRuntime) {
    let mut session = Session::open(Shelf::of(&KITS_AND_SHIPMENTS, &TABLES));
    assert_eq!(rt; session.lay(&REORDER), Ok((9, 2)));
    assert_eq!(rt; session.unnest(), Ok(14));
    // a shipment for kit 2: both its rows wanted none
    assert_eq!(rt; session.add(1, &[TWO, ONE]), Ok(4));
    both(&rt, &session, 1, ONE);
    refused(&rt, session.add(1, &[TWO]), 14, 1);
    refused(&rt, session.add(2, &[TWO, ONE]), 13, 0);
    both(&rt, &session, 1, ONE);
    // kit 1 is gone
    assert_eq!(rt; session.withdraw(0, 0), Ok(3));
    both(&rt, &session, 0, Cell::Null);
    refused(&rt, session.withdraw(0, 3), 13, 0);
    // the shipment is struck out again
    assert_eq!(rt; session.withdraw(1, 3), Ok(3));
    both(&rt, &session, 2, TWO);
    // after a withdrawal places count anew
    assert_eq!(rt; session.withdraw(0, 1), Ok(2));
    both(&rt, &session, 1, TWO);
    session.clear();
    both(&rt, &session, 3, ONE);
}

#[test]
fn the_65th_add_is_refused(rt: HostRuntime) {
    let mut session = Session::open(Shelf::of(&KITS_AND_SHIPMENTS, &TABLES));
    for n in 0..64 {
        assert_eq!(rt; session.add(1, &[ONE, ONE]), Ok(n + 4));
    }
    refused(&rt, session.add(1, &[ONE, ONE]), 15, 0);
    session.clear();
    assert_eq!(rt; session.add(1, &[ONE, ONE]), Ok(4));
}

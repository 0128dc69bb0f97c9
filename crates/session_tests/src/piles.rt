// Two sessions over piles of stocks.
use cells::cell::Cell;
use dealer::{KITS_AND_SHIPMENTS, TABLES};
use lines::line::Line;
use movements::movements::Movements;
use session::session::Session;
use shelf::shelf::Shelf;
use stock::pair::Pair;
use stock::ruler::Ruler;

#[test]
fn two_sessions_over_one_pile(rt: HostRuntime) {
    let mut layer = Movements::over(Pair::of(
        Shelf::of(&KITS_AND_SHIPMENTS, &TABLES),
        Ruler::of(5),
    ));
    assert_eq!(rt; layer.withdraw(2, 0), Ok(4));
    let lines = [Line::Table { table: 2 }];
    let mut first = Session::open(&layer);
    let mut second = Session::open(&layer);
    assert_eq!(rt; first.lay(&lines), Ok((1, 1)));
    assert_eq!(rt; second.lay(&lines), Ok((1, 1)));
    assert_eq!(rt; first.withdraw(2, 0), Ok(3));
    let mut cells = [Cell::Number(9); 8];
    assert_eq!(rt; first.ask(&mut cells), Ok((3, 1)));
    assert_eq!(rt; cells[0], Cell::Number(2));
    assert_eq!(rt; cells[3], Cell::Null);
    // the other session shows the rows below as before
    assert_eq!(rt; second.ask(&mut cells), Ok((4, 1)));
    assert_eq!(rt; cells[0], Cell::Number(1));
}

// What the check of some lines must answer.
use lines::line::Line;
use query::query::Query;
use std::process::Abort;
use std::test::Fail;
use stock::pair::Pair;
use stock::ruler::Ruler;

pub fn passes(rt: &impl Abort, lines: &[Line], width: usize) -> Result<(), Fail> {
    let stock = Pair::of(Ruler::of(3), Ruler::of(2));
    let query = Query::check(lines, &stock)?;
    assert_eq!(rt; query.size(), lines.len());
    assert_eq!(rt; query.table_count(), 2);
    assert_eq!(rt; query.table_width(1), 1);
    assert_eq!(rt; query.width(), width);
    Ok(())
}

pub fn refused(rt: &impl Abort, lines: &[Line], number: usize, value: usize) {
    let stock = Pair::of(Ruler::of(3), Ruler::of(2));
    let refusal = Query::check(lines, &stock)
        .err()
        .map(|e| (e.number(), e.value()));
    assert_eq!(rt; refusal, Some((number, value)));
}

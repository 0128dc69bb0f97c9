// What unnesting must make of some lines.
use dealer::{KITS_AND_SHIPMENTS, TABLES};
use lines::line::Line;
use query::query::Query;
use shelf::shelf::Shelf;
use std::process::Abort;
use std::test::Fail;
use unnest::plan::FlatPlan;

// The flat lines over the kits and their shipments.
pub fn unnests(rt: &impl Abort, lines: &[Line], expected: &[Line]) -> Result<(), Fail> {
    let query = Query::check(lines, &Shelf::of(&KITS_AND_SHIPMENTS, &TABLES))?;
    let plan = FlatPlan::unnest(&query)?;
    assert_eq!(rt; plan.widths().len(), 2);
    assert_eq!(rt; plan.lines(), expected);
    Ok(())
}

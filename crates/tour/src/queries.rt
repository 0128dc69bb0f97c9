// Queries: lines, the check, the flat plan and its run.
use crate::answers::{refused, tell_rows};
use cells::cell::Cell;
use cells::sign::Sign;
use dealer::REORDER;
use evaluate::run::run;
use lines::line::{Line, Side};
use query::query::Query;
use std::io;
use stock::stock::Stock;
use unnest::plan::FlatPlan;

fn list(rt: &HostRuntime, lines: &[Line]) -> io::Result<()> {
    for (i, line) in lines.iter().enumerate() {
        println!(rt; "  {i} {line}")?;
    }
    Ok(())
}

fn answered<S: Stock>(rt: &HostRuntime, plan: &FlatPlan, stock: &S) -> io::Result<()> {
    println!(rt; "Run with 114 lent cells, it lacks one:")?;
    let mut few = [Cell::Null; 114];
    let answer = run(stock, plan, &mut few);
    tell_rows(rt, answer, &few)?;
    println!(rt; "Run with 115, it answers with the kits:")?;
    let mut cells = [Cell::Null; 115];
    let answer = run(stock, plan, &mut cells);
    tell_rows(rt, answer, &cells)
}

fn unnested<S: Stock>(rt: &HostRuntime, query: &Query, stock: &S) -> io::Result<()> {
    println!(rt; "Its flat plan asks for all kits at once:")?;
    match FlatPlan::unnest(query) {
        Ok(plan) => {
            list(rt, plan.lines())?;
            answered(rt, &plan, stock)
        }
        Err(refusal) => refused(rt, refusal),
    }
}

fn checked<S: Stock>(rt: &HostRuntime, lines: &[Line], stock: &S) -> io::Result<()> {
    match Query::check(lines, stock) {
        Ok(query) => {
            let size = query.size();
            let width = query.width();
            println!(rt; "  accepted: {size} lines, {width} columns")?;
            unnested(rt, &query, stock)
        }
        Err(refusal) => refused(rt, refusal),
    }
}

pub fn ask_for_kits<S: Stock>(rt: &HostRuntime, stock: &S) -> io::Result<()> {
    println!(rt; "A query: the kits whose second column is the number of their shipments.")?;
    list(rt, &REORDER)?;
    println!(rt; "With column 9 in line 6, which no row has, the check says:")?;
    let mut lines = REORDER;
    lines[6] = Line::Compare {
        sign: Sign::Equal,
        left: Side::Column(1),
        right: Side::Column(9),
    };
    checked(rt, &lines, stock)?;
    println!(rt; "As it is, the check says:")?;
    checked(rt, &REORDER, stock)
}

// Stocks: a shelf, a layer over it, movements and refusals.
use crate::answers::{tell, tell_row};
use cells::cell::Cell;
use dealer::{KITS, SHIPMENTS};
use movements::movements::Movements;
use std::io;
use stock::stock::Stock;

// The rows of a table, on one line.
fn show<S: Stock>(rt: &HostRuntime, name: &str, stock: &S, table: usize) -> io::Result<()> {
    print!(rt; "  {name}:")?;
    for place in 0..stock.row_count(table) {
        print!(rt; " ")?;
        let columns = 0..stock.width(table);
        tell_row(rt, columns.map(|column| stock.cell(table, place, column)))?;
    }
    println!(rt; "")
}

fn show_all<S: Stock>(rt: &HostRuntime, stock: &S) -> io::Result<()> {
    show(rt, "kits", stock, KITS)?;
    show(rt, "shipments", stock, SHIPMENTS)
}

pub fn move_rows<S: Stock>(rt: &HostRuntime, layer: &mut Movements<S>) -> io::Result<()> {
    println!(rt; "A layer of movements over the shelf shows the same rows:")?;
    show_all(rt, layer)?;
    println!(rt; "A shipment of part 9 for kit 2 arrives:")?;
    tell(
        rt,
        "rows now shown",
        layer.add(SHIPMENTS, &[Cell::Number(2), Cell::Number(9)]),
    )?;
    show_all(rt, layer)?;
    println!(rt; "The first kit is withdrawn:")?;
    tell(rt, "rows now shown", layer.withdraw(KITS, 0))?;
    show_all(rt, layer)?;
    println!(rt; "A shipment of three cells does not fit a table of two columns:")?;
    tell(
        rt,
        "rows now shown",
        layer.add(SHIPMENTS, &[Cell::Number(2), Cell::Number(9), Cell::Null]),
    )?;
    println!(rt; "All movements are taken back:")?;
    layer.clear();
    show_all(rt, layer)
}

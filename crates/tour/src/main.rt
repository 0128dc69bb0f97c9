// A walk through the engine in plain words, over a dealer's kits and shipments.
#![tactic(auto)]

mod answers;
mod queries;
mod sessions;
mod stocks;

use answers::tell;
use dealer::{KITS_AND_SHIPMENTS, TABLES};
use movements::movements::Movements;
use queries::ask_for_kits;
use sessions::live;
use shelf::shelf::Shelf;
use std::io;
use stocks::move_rows;

// A layer over the shelf. Apart from `main`, so that the stack no longer holds it once a session is opened.
#[inline(never)]
fn layered(rt: &HostRuntime) -> io::Result<()> {
    let mut layer = Movements::over(Shelf::of(&KITS_AND_SHIPMENTS, &TABLES));
    move_rows(rt, &mut layer)?;
    ask_for_kits(rt, &layer)
}

fn main(rt: HostRuntime) -> io::Result<()> {
    println!(rt;
        "A shelf is cut from lent cells: four kits (kit, shipments wanted), three shipments (kit, part)."
    )?;
    tell(&rt, "tables", Shelf::check(&KITS_AND_SHIPMENTS, &TABLES))?;
    println!(rt; "One cell too few, and the check names the table at fault:")?;
    tell(
        &rt,
        "tables",
        Shelf::check(&KITS_AND_SHIPMENTS[..13], &TABLES),
    )?;
    layered(&rt)?;
    live(&rt, Shelf::of(&KITS_AND_SHIPMENTS, &TABLES))
}

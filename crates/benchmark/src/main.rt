// How many cells two queries need at three sizes, and with a repeat count as argument how long a call takes.
#![tactic(auto)]

mod measure;
mod queries;
mod rows;

use cells::cell::Cell;
use dealer::REORDER;
use measure::measure;
use queries::MISSING;
use rows::lay;
use shelf::shelf::Shelf;
use std::{env, io};

// As many cells as may be lent.
const LENT: usize = 65536;

// The repeat count, where the argument is one.
fn repeats(rt: &HostRuntime) -> io::Result<Option<u32>> {
    let word = env::args(rt)?.nth(1);
    let count = word.and_then(|word| word.parse::<u32>().ok());
    Ok(count.filter(|n| *n > 0))
}

fn at_size(
    rt: &HostRuntime,
    kits: u16,
    cells: &mut [Cell],
    repeats: Option<u32>,
) -> io::Result<()> {
    let shipments = usize::from(kits) * 2;
    let parts = lay(rt.alloc(), kits)?;
    let pairs = [(2, usize::from(kits)), (1, shipments)];
    let shelf = Shelf::of(&parts, &pairs);
    print!(rt; "{kits} kits, {shipments} shipments, reorder: ")?;
    measure(rt, &shelf, &REORDER, cells, repeats)?;
    print!(rt; "{kits} kits, {shipments} shipments, missing: ")?;
    measure(rt, &shelf, &MISSING, cells, repeats)
}

fn main(rt: HostRuntime) -> io::Result<()> {
    let repeats = repeats(&rt)?;
    let mut cells = vec![in rt.alloc(); Cell::Null; LENT]?;
    for kits in [22, 45, 90] {
        at_size(&rt, kits, &mut cells, repeats)?;
    }
    Ok(())
}

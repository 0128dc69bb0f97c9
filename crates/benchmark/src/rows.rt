// The rows: made by a fixed rule, so that every run and every other engine has the same.
use cells::cell::Cell;
use std::alloc::{AllocError, Global};

// What kit k is wanted: 0 to 3 shipments, and NULL for every eleventh.
fn wanted(k: u16) -> Cell {
    if k % 11 == 5 {
        Cell::Null
    } else {
        Cell::Number(i64::from(k % 4))
    }
}

// The kit that shipment s is for. Low kits have several and many a high one has none.
fn shipped(s: u32) -> Cell {
    Cell::Number(i64::from(s / (s % 5 + 2)))
}

// Only at this size is there a shipment for no known kit, the last. A NOT IN then holds for no kit.
fn with_unknown(kits: u16) -> bool {
    kits == 45
}

// The kits (kit, wanted), then twice as many shipments (kit). These have no part: with a second column 90 kits would need over 65,536 cells.
pub fn lay(heap: Global, kits: u16) -> Result<Vec<Cell>, AllocError> {
    let known = (0..kits).flat_map(|k| [Cell::Number(i64::from(k)), wanted(k)]);
    let shipments = (0..u32::from(kits) * 2).map(shipped);
    let mut cells: Vec<Cell> = known.chain(shipments).collect(heap)?;
    if with_unknown(kits)
        && let Some(last) = cells.last_mut()
    {
        *last = Cell::Null;
    }
    Ok(cells)
}

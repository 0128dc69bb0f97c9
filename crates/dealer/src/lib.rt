// A dealer's kits and shipments, and the query that asks which kits to reorder: what the programs and the tests are shown on.
#![tactic(auto)]

use cells::cell::Cell;
use cells::sign::Sign;
use lines::line::{Aggregate, Line, Side};

// The tables' numbers.
pub const KITS: usize = 0;

pub const SHIPMENTS: usize = 1;

// Kits (kit, shipments wanted), then shipments (kit, part).
pub const KITS_AND_SHIPMENTS: [Cell; 14] = [
    Cell::Number(1),
    Cell::Number(2),
    Cell::Number(2),
    Cell::Number(0),
    Cell::Number(2),
    Cell::Number(0),
    Cell::Number(3),
    Cell::Null,
    Cell::Number(1),
    Cell::Number(5),
    Cell::Number(1),
    Cell::Number(7),
    Cell::Number(3),
    Cell::Null,
];

// The width and the row count of each table.
pub const TABLES: [(usize, usize); 2] = [(2, 4), (2, 3)];

// The kits that have as many shipments as are wanted.
pub const REORDER: [Line; 9] = [
    Line::Table { table: KITS },
    Line::Table { table: SHIPMENTS },
    Line::Compare {
        sign: Sign::Equal,
        left: Side::Column(0),
        right: Side::Column(2),
    },
    Line::Select {
        rows: 1,
        condition: 2,
    },
    Line::Total {
        aggregate: Aggregate::Rows,
        column: 0,
        rows: 3,
    },
    Line::ApplyCross { left: 0, right: 4 },
    Line::Compare {
        sign: Sign::Equal,
        left: Side::Column(1),
        right: Side::Column(2),
    },
    Line::Select {
        rows: 5,
        condition: 6,
    },
    Line::Keep {
        first: 2,
        last: 0,
        rows: 7,
    },
];

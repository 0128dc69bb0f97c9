// A query beside the dealer's: over kits (kit, wanted) as table 0 and shipments (kit) as table 1.
use cells::sign::Sign;
use dealer::{KITS, SHIPMENTS};
use lines::line::{Line, Side};

// The kits that are NOT IN the shipments: unequal to all of them.
pub const MISSING: [Line; 6] = [
    Line::Table { table: KITS },
    Line::Table { table: SHIPMENTS },
    Line::ApplyAll {
        sign: Sign::Unequal,
        column: 0,
        left: 0,
        right: 1,
    },
    Line::Compare {
        sign: Sign::Equal,
        left: Side::Column(2),
        right: Side::Constant(1),
    },
    Line::Select {
        rows: 2,
        condition: 3,
    },
    Line::Keep {
        first: 2,
        last: 0,
        rows: 4,
    },
];

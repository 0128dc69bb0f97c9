// The limits that every stock keeps to.

// How many tables a stock has at most, how many columns a table, and how many rows.
pub const MOST_TABLES: usize = 16;

pub const MOST_COLUMNS: usize = 8;

pub const MOST_ROWS: usize = 65535;

use crate::row::Row;
use crate::table::Table;

// A table of rows, each with a mask of roles for each slot.
pub type Grid = Table<Row>;

//! Tables, kept as bytes, and runs of tables.
#![tactic(auto)]

mod cursor;
mod cutting;
mod iterator;
mod order;
mod piece;
mod run_data;
mod span;
mod table;
mod table_bytes;

pub use fleet_rows::{are_in_bounds, are_strictly_ordered};
pub use iterator::TableIterator;
pub use run_data::{RunData, RunIterator};
pub use table::TableData;

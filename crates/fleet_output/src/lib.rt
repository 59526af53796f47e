//! The tables that a worker writes: it gets the source tables, makes the next rows of a range from
//! them, and puts them as a table. At the end of a job it makes all that is left of each range, and
//! puts it table by table.
#![tactic(auto)]

mod finish;
mod gets;
mod job;
mod next;
mod outputs;
mod put;
mod ranges;
mod ranges_left;
mod write;

pub use finish::finish_left;
pub use gets::{get_tables, tables_in};
pub use job::{range_job, range_jobs};
pub use next::read_next;
pub use outputs::all_outputs;
pub use put::put_output;
pub use ranges::put_ranges;
pub use ranges_left::{LeftTables, read_left};
pub use write::write_next;

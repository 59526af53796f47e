//! The read of a key, and the scan of a range of keys, over what a store holds.
#![tactic(auto)]

mod answer;
mod page;
mod read;
mod scan;
mod sources;

pub use answer::{PageEnd, ReadAnswer, ScanAnswer, ScanPage};
pub use read::read_stored;
pub use scan::scan_stored;

//! Scans: one pass over the rows of several sources answers each key of a range as a read does.
#![tactic(auto)]

mod answer;
mod key_read;
mod key_rows;
mod next;
mod open;
mod scan;

pub use answer::KeyAnswer;
pub use key_read::KeyRead;
pub use scan::{Scan, ScanSources};

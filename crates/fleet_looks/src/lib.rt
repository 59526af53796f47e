//! The lines of a script that look at a store and call nothing: what each of them replies.
#![tactic(auto)]

mod looks;
mod reads;
mod scans;
mod tables;

pub use looks::{dump, show_jobs, show_tables, show_trees};
pub use reads::read_key;
pub use scans::scan_keys;
pub use tables::ids_of;

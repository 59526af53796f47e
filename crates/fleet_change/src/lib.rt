//! What a poll puts: the records, if it changed a job, and the manifest, if it changed a tree or the
//! horizon. Nothing here calls a store.
#![tactic(auto)]

mod change;
mod put;
mod same_manifest;

pub use change::{change_of, is_nothing};
pub use put::{PollPut, records_put};
pub use same_manifest::is_unchanged;

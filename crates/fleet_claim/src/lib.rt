//! What a claim decides: which waiting jobs a worker takes and which it stops, the records that it
//! puts, and how the attempts begin. Nothing here calls a store.
#![tactic(auto)]

mod beginning;
mod choice;
mod contexts;
mod options;
mod put;
mod sources;

pub use beginning::{ClaimedAttempt, Starts, begin_all};
pub use choice::{claimed_jobs, stopped_jobs};
pub use options::CompactionWorkerOptions;
pub use put::{claimed_records, next_attempt, next_attempts};

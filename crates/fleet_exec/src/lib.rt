//! Making the ranges of a job from its sources, table by table. A range may be resumed after any
//! row. An executor holds the jobs that run.
#![tactic(auto)]

mod active_job;
mod args;
mod executor;
mod finish;
mod gate;
pub mod laws;
mod open;
mod pack;
mod range_job;
mod sources;
mod tables;
mod take;

pub use args::StartCompactionJobArgs;
pub use executor::Executor;
pub use finish::finish_ranges;
pub use gate::{OpenGate, RangeGate};
pub use range_job::{RangeJob, RangeTables, SourceSet};
pub use sources::are_sources;
pub use tables::next_table;

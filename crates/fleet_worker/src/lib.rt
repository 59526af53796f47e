//! Workers: a worker runs attempts at jobs.
#![tactic(auto)]

mod attempt;
mod beat;
mod claim;
mod finish;
mod finishing;
mod handle;
mod held_tables;
mod output;
mod release;
mod worker;

pub use attempt::RunAttempt;
pub use beat::BeatReport;
pub use claim::ClaimReport;
pub use fleet_claim::CompactionWorkerOptions;
pub use handle::{WorkerAnswer, WorkerMessage};
pub use worker::Worker;

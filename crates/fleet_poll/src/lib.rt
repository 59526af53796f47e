//! Polls: what a coordinator does with the manifest and the records that it got, before it puts
//! them.
#![tactic(auto)]

mod adding;
mod asking;
mod committing;
mod draining;
mod failing;
mod freeing;
mod gated_jobs;
mod joining;
mod judging;
mod moving;
mod opening;
mod poll;
mod proposing;
mod report;
mod steps;
mod submitted_jobs;

pub use poll::Poll;
pub use report::PollReport;

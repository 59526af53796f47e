//! Makes scripts from a number and a count of rounds. Each round has flushes of drawn rows, a job
//! that compacts them, and a read.
#![tactic(auto)]

mod generator;
pub mod laws;
mod printing;
mod script;

pub use script::make_script;

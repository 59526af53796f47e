//! The level scheduler: it keeps each run of a tree, except the oldest, within a size.
#![tactic(auto)]

mod options;
mod picking;
mod scheduler;
mod sizes;
mod used_nodes;

pub use options::LevelOptions;
pub use scheduler::LevelScheduler;

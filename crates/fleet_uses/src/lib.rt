//! Small uses of the crates, each of one crate by itself. They are proved.
#![tactic(auto)]

pub mod levels;
pub mod scanning;

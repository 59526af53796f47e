//! The sweep, which deletes the tables that nothing can need.
#![tactic(auto)]

mod named_tables;
mod sweeping;
mod unneeded_tables;

pub use sweeping::sweep;

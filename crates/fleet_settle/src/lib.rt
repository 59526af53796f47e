//! The line of a script that runs a coordinator and a worker until nothing is left to do.
#![tactic(auto)]

mod lines;
mod rounds;
mod steps;

pub use lines::{serve_line, settle};

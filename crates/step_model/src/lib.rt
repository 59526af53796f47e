//! This crate defines the steps of a fleet's parties, for use in contracts. Each step is a course
//! of calls of the store. The definitions are in specs/. The contracts of the module `worked` are
//! worked examples of them.
#![tactic(auto)]

pub mod worked;

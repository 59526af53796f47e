//! What the end of a job decides: the cut that the job keeps, and the records that its worker puts.
//! Nothing here calls a store.
#![tactic(auto)]

mod put;

pub use put::{EndedAttempt, FinishPut, finish_put, kept_cut};

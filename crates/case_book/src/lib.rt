//! Cases of single calls on specs, jobs, records and a coordinator's state.
#![tactic(auto)]

mod job_calls;
pub mod jobs;
mod state_calls;
pub mod trees;

use case_words::flaw::Flaw;
use std::alloc::Global;

/// Answers the call of this name. Returns false if no call in this crate has it.
pub fn answers(
    alloc: Global,
    name: &str,
    words: &[&str],
    answer: &mut String,
) -> Result<bool, Flaw> {
    Ok(
        job_calls::answers(alloc, name, words, answer)?
            || state_calls::answers(alloc, name, words, answer)?,
    )
}

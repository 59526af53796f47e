//! Cases of single calls on iterators, folds, filters and the ranges of jobs.
#![tactic(auto)]

mod exec_calls;
mod filter_calls;
mod filters;
mod fold_calls;
mod iter_calls;
mod operators;
mod watching;

use case_words::flaw::Flaw;
pub use operators::Sifting;
use std::alloc::Global;
use std::thread::Threads;

/// Answers the call of this name. Returns false if no call in this crate has it.
pub fn answers<R: Threads + Sync>(
    rt: &R,
    alloc: Global,
    name: &str,
    words: &[&str],
    answer: &mut String,
) -> Result<bool, Flaw> {
    Ok(
        iter_calls::answers(alloc, name, words, answer)?
            || fold_calls::answers(alloc, name, words, answer)?
            || filter_calls::answers(alloc, name, words, answer)?
            || exec_calls::answers(rt, alloc, name, words, answer)?,
    )
}

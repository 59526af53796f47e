//! Cases of single calls on rows, ranges, tables, trees and plans.
#![tactic(auto)]

mod error_calls;
mod manifest_calls;
mod plan_calls;
mod range_calls;
mod row_calls;
mod table_calls;

use case_words::flaw::Flaw;
use std::alloc::Global;

/// Answers the call of this name. Returns false if no call in this crate has it.
pub fn answers(
    alloc: Global,
    name: &str,
    words: &[&str],
    answer: &mut String,
) -> Result<bool, Flaw> {
    Ok(
        row_calls::answers(alloc, name, words, answer)?
            || error_calls::answers(alloc, name, words, answer)?
            || range_calls::answers(alloc, name, words, answer)?
            || table_calls::answers(alloc, name, words, answer)?
            || manifest_calls::answers(alloc, name, words, answer)?
            || plan_calls::answers(alloc, name, words, answer)?,
    )
}

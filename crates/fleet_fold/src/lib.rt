//! What a compaction does to rows: operators that merge operands, retention, and filters.
#![tactic(auto)]

mod append;
mod filter;
mod filtering;
mod fold;
mod group;
mod job;
mod keeping;
pub mod laws;
mod merging;
mod operator;
mod required_operator;
mod retention;

pub use append::AppendOperator;
pub use filter::{
    CompactionFilter, CompactionFilterDecision, CompactionFilterSupplier, CompactionJobContext,
    RowFilter,
};
pub use filtering::CompactionFilterIterator;
pub use job::{JobIterator, job_iterator};
pub use merging::MergeOperatorIterator;
pub use operator::{BatchMerger, MERGE_OPERATOR_OPERANDS, MergeOperator};
pub use required_operator::MergeOperatorRequiredIterator;
pub use retention::RetentionIterator;

//! Laws on rows. Each function has an empty body, and its clause states a law about what a
//! compaction job makes of rows. A caller uses a law by calling its function. The statements are in
//! specs/.
//!
//! A job is what a compaction makes of its sources' rows. It is whole if the merge operator refuses
//! no fold. Its cut is the sequence at or below which it folds operands and drops older versions.
//! Rows are strictly ordered if keys rise and, within a key, sequences fall.
#![tactic(auto)]

mod folding;
mod keeping;
mod making;
mod merging;

pub use folding::{
    append_is_lawful, batches_fold_alike, chunk_is_walked, cuts_into_batches, folds_by_batches,
    groups_are_walked,
};
pub use keeping::{
    jobs_cut_between_keys, jobs_keep_order, jobs_keep_places, jobs_keep_reads, reads_are_kept,
    whole_unless_refused,
};
pub use making::{
    left_is_made, pieces_make_all, plans_cover, ranges_in_pieces_make_all,
    ranges_in_turns_make_all, ranges_make_all, resumes_after, sources_resume_after,
    tables_have_all, turns_make_all,
};
pub use merging::{
    apart_are_ordered, least_comes_first, newer_rows_come_first, ordered_stay, sources_may_be_cut,
};

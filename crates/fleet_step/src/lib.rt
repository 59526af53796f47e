//! How steps of parties run over any store: what the result of a step says of its run, and the parts
//! that steps share.
#![tactic(auto)]

mod drawing;
mod gets;
mod outcome;

pub use drawing::draw_jobs;
pub use gets::get_both;
pub use outcome::{MOST_REFUSED, put_answer, refused_at, stops};

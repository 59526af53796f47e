//! Reads scripts from text, and prints replies.
#![tactic(auto)]

pub mod answers;
mod copies;
mod error;
mod forms;
mod job_texts;
mod line;
pub mod listings;
mod lists;
mod node;
mod party_forms;
mod prints;
mod reply;
mod report;
mod row;
mod script;
mod served_lines;
mod texts;
mod tree_forms;
mod word;

pub use error::TextError;
pub use forms::line_at;
pub use line::{Line, LineList};
pub use node::{NodeList, NodeName};
pub use reply::Reply;
pub use report::{Begun, FlushFault, Page, PollReport, ScanEnd};
pub use row::{row_at, rows_at};
pub use script::read_script;
pub use word::{bytes_of, is_word, number_of, run_of, signed_of, stamp_of};

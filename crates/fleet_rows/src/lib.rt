//! Rows as tables store them and their order, ids of tables and jobs, lists and texts that contracts
//! can see, the settings of a compaction, and the errors of the fleet.
#![tactic(auto)]

mod copies;
mod errors;
mod key_value;
mod list;
mod order;
mod row;
mod settings;
mod text;
mod ulid;

pub use copies::Copies;
pub use errors::{CompactionFilterError, MergeOperatorError, SlateDBError};
pub use key_value::KeyValue;
pub use list::{AttemptList, IdList, JobList, ListOf, NamesList, PlaceList, RuleList};
pub use order::{are_in_bounds, are_strictly_ordered, key_order, row_order, same_key};
pub use row::{RowEntry, ValueDeletable};
pub use settings::Settings;
pub use text::Text;
pub use ulid::{DRAWN_BASE, Ulid};

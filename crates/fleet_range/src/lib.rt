//! Starts and ends of ranges in their orders, ranges of keys of any ordered type, and ranges of
//! byte strings.
#![tactic(auto)]

mod byte_bounds;
mod bytes_range;
mod comparable_range;
mod end_bound;
mod prefix;
mod start_bound;

pub use byte_bounds::ByteRangeBounds;
pub use bytes_range::{BytesRange, RangeList};
pub use comparable_range::ComparableRange;
pub use end_bound::EndBound;
pub use start_bound::StartBound;

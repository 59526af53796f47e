//! Reports of tables while they are made.

/// A gate gets a report of each table of a range. It may wait, and so delay the next table.
pub trait RangeGate: Sync {
    /// Reports that a range has given a table. Ranges and a range's tables are counted from 1. The
    /// number of the table stops at `u32::MAX`.
    fn given(&self, range: u32, table: u32);

    /// Whether a report may wait for that of another range. If it may, each range needs a thread of
    /// its own, however few rows there are.
    fn may_wait(&self) -> bool {
        true
    }
}

/// A gate that never waits.
#[derive(Clone, Copy, Debug, PartialEq, Eq)]
pub struct OpenGate;

impl RangeGate for OpenGate {
    fn given(&self, _range: u32, _table: u32) {}

    fn may_wait(&self) -> bool {
        false
    }
}

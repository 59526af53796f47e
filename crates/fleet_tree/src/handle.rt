//! Descriptions of tables.

ghost use Rattle.std.specs.Prelude.{◌≡◌, IfOk, IsOkUnless};

use crate::BlockList;
use bytes::Bytes;
use fleet_rows::{Copies, SlateDBError, Ulid};
use std::alloc::AllocError;

/// The description of a table, without its rows. `TableData::describe` makes it.
#[derive(Clone, Debug, Drop, PartialEq, Eq)]
pub struct SsTableHandle {
    /// A flush's table has the flush's name as its id, at moment 0.
    pub id: Ulid,
    pub first_key: Bytes,
    pub last_key: Bytes,
    /// The sequence of the last row.
    pub last_seq: u64,
    pub rows: u64,
    /// The sum of `estimated_size` of the rows, in bytes. It stops at `u64::MAX`.
    pub size: u64,
    pub blocks: BlockList,
}

impl SsTableHandle {
    /// A copy.
    pub fn clone(&self) -> Result<SsTableHandle, SlateDBError>
        ensures copy { IfOk result (λ copy. copy ≡ self.now) }
        ensures memory { IsOkUnless result SlateDBError.Memory }
    {
        Ok(Clone::clone(self)?)
    }
}

impl Copies for SsTableHandle {
    fn copied(&self) -> Result<SsTableHandle, AllocError> {
        Clone::clone(self)
    }
}

//! Blocks of a table.

ghost use Rattle.std.specs.Prelude.{◌≡◌, IfOk, IsOkUnless};

use bytes::Bytes;
use fleet_rows::{Copies, SlateDBError};
use std::alloc::AllocError;

/// A block of a table: its first key, and its offset, which is the sum of `estimated_size` of the
/// rows before it. A block ends after the row with which its own sum reaches 4,096 bytes.
#[derive(Clone, Debug, Drop, PartialEq, Eq)]
pub struct BlockMeta {
    pub first_key: Bytes,
    pub offset: u64,
}

impl BlockMeta {
    /// A copy.
    pub fn clone(&self) -> Result<BlockMeta, SlateDBError>
        ensures copy { IfOk result (λ copy. copy ≡ self.now) }
        ensures memory { IsOkUnless result SlateDBError.Memory }
    {
        Ok(Clone::clone(self)?)
    }
}

impl Copies for BlockMeta {
    fn copied(&self) -> Result<BlockMeta, AllocError> {
        Clone::clone(self)
    }
}

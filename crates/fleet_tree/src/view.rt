//! Tables as trees name them.

ghost use Rattle.std.specs.Prelude.{◌≡◌, true, IfOk, IsOkUnless};
ghost use Rattle.std.specs.Ordering.{is_le};
ghost use Rattle.row_model.specs.Rows.{key_cmp};
ghost use Rattle.fleet_tree.specs.Views.{key_range};

use crate::SsTableHandle;
use fleet_range::BytesRange;
use fleet_rows::{Copies, SlateDBError, Ulid};
use std::alloc::AllocError;
use std::marker::Model;
use std::ops::Bound;

/// A table with the id by which a tree names it. Contracts see the id and the table's description.
#[derive(Debug, Drop, PartialEq, Eq)]
pub struct SsTableView {
    pub id: Ulid,
    pub sst: SsTableHandle,
    effective_range: BytesRange,
}

impl Model for SsTableView {
    ghost use Rattle.std.specs.Prelude.{◌≡◌};
    ghost use Rattle.fleet_tree.specs.Views.{View, key_range};

    ghost Value = { View };

    ghost view = { λ v. record { id = v.id; sst = v.sst } };

    ghost invariant = { λ v. v.effective_range ≡ key_range v.sst };

    ghost inverse = { λ v. record { id = v.id; sst = v.sst; effective_range = key_range v.sst } };
}

impl SsTableView {
    /// A view of this table under this id.
    pub fn new(id: Ulid, sst: SsTableHandle) -> Result<SsTableView, SlateDBError>
        requires { is_le (key_cmp sst.first_key sst.last_key) ≡ true }
        ensures view { IfOk result (λ view. view ≡ record { id = id; sst = sst }) }
        ensures memory { IsOkUnless result SlateDBError.Memory }
    {
        let first = sst.first_key.clone()?;
        let last = sst.last_key.clone()?;
        Ok(SsTableView {
            id,
            sst,
            effective_range: BytesRange::new(Bound::Included(first), Bound::Included(last)),
        })
    }

    /// A view of this table under the table's own id.
    pub fn identity(sst: SsTableHandle) -> Result<SsTableView, SlateDBError>
        requires { is_le (key_cmp sst.first_key sst.last_key) ≡ true }
        ensures view { IfOk result (λ view. view ≡ record { id = sst.id; sst = sst }) }
        ensures memory { IsOkUnless result SlateDBError.Memory }
    {
        SsTableView::new(sst.id, sst)
    }

    /// The size of the table, in bytes.
    pub fn estimate_size(&self) -> u64
        ensures { result ≡ self.now.sst.size }
    {
        self.sst.size
    }

    /// The range from the table's first key to its last key, both included.
    pub fn compacted_effective_range(&self) -> &BytesRange
        ensures { result.now ≡ key_range self.now.sst }
    {
        &self.effective_range
    }

    /// A copy.
    pub fn clone(&self) -> Result<SsTableView, SlateDBError>
        ensures copy { IfOk result (λ copy. copy ≡ self.now) }
        ensures memory { IsOkUnless result SlateDBError.Memory }
    {
        Ok(Clone::clone(self)?)
    }
}

impl Clone for SsTableView {
    ghost is_clone = { λ view copy. copy ≡ view };

    fn clone(&self) -> Result<SsTableView, AllocError> {
        Ok(SsTableView {
            id: self.id,
            sst: Clone::clone(&self.sst)?,
            effective_range: Clone::clone(&self.effective_range)?,
        })
    }
}

impl Copies for SsTableView {
    fn copied(&self) -> Result<SsTableView, AllocError> {
        Clone::clone(self)
    }
}

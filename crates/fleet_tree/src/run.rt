//! Sorted runs.

ghost use Rattle.std.specs.Prelude.{◌≡◌, ◌+◌, fold, IfOk, IsOkUnless};
ghost use Rattle.row_model.specs.Written.Sizes.{saturated_sum};
ghost use Rattle.fleet_tree.specs.Sizes.{run_size};

use crate::{SsTableView, ViewList};
use fleet_rows::{Copies, SlateDBError};
use std::alloc::AllocError;

/// A sorted run: tables whose keys rise from one table to the next. A run may have no tables.
#[derive(Clone, Debug, Drop, PartialEq, Eq)]
pub struct SortedRun {
    pub id: u32,
    pub views: ViewList,
}

impl SortedRun {
    /// A run with this id and these tables. That their keys rise is not checked.
    pub fn new(id: u32, views: ViewList) -> SortedRun
        ensures { result ≡ record { id = id; views = views } }
    {
        SortedRun { id, views }
    }

    /// The tables of the run, in order.
    pub fn sst_views(&self) -> &[SsTableView]
        ensures { result.now ≡ self.now.views }
    {
        self.views.as_slice()
    }

    /// The sum of the tables' sizes, in bytes. It stops at `u64::MAX`.
    pub fn estimate_size(&self) -> u64
        ensures { result ≡ run_size self.now.views }
    {
        size_of(self.sst_views())
    }

    /// A copy.
    pub fn clone(&self) -> Result<SortedRun, SlateDBError>
        ensures copy { IfOk result (λ copy. copy ≡ self.now) }
        ensures memory { IsOkUnless result SlateDBError.Memory }
    {
        Ok(Clone::clone(self)?)
    }
}

impl Copies for SortedRun {
    fn copied(&self) -> Result<SortedRun, AllocError> {
        Clone::clone(self)
    }
}

// The sum of the tables' sizes, in bytes.
fn size_of(views: &[SsTableView]) -> u64
    ensures { result ≡ fold (λ size view. saturated_sum (size + view.sst.size)) 0 views.now }
{
    views.iter().fold(0, with_view)
}

fn with_view(size: u64, view: &SsTableView) -> u64
    ensures { result ≡ saturated_sum (size + view.now.sst.size) }
{
    size.saturating_add(view.estimate_size())
}

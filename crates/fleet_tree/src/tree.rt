//! The tree of a segment.

ghost use Rattle.std.specs.Prelude.{◌≡◌, ◌+◌, ◌≤◌, [], None, length, IfOk, IsOkUnless, OnErr, OnOk};
ghost use Rattle.fleet_tree.specs.Changes.{changed_tree};
ghost use Rattle.fleet_tree.specs.Trees.{empty_tree, flushed_on, from_writer, newer_than};

use crate::{FlushList, RunList, SortedRun, SsTableView};
use fleet_rows::{Copies, SlateDBError, Ulid};
use std::alloc::{AllocError, Global};

/// The tree of a segment. Contracts see its lists, and `specs/Trees` says how these are nodes of a
/// tree of the model.
#[derive(Clone, Debug, Drop, PartialEq, Eq)]
pub struct LsmTreeState {
    /// The flushes that no job has taken yet, newest first.
    pub l0: FlushList,
    /// The runs, by falling id.
    pub compacted: RunList,
    /// The newest flush that a job took or dropped, if there is one. This flush and older ones must
    /// not come to the tree again.
    pub last_compacted_l0_sst_view_id: Option<Ulid>,
    /// The greatest sequence of the segment's flushes.
    pub last_seq: Option<u64>,
}

/// A change of a tree that exchanges a part of its runs, as the end of a job does.
#[derive(Debug, Drop)]
pub struct TreeChange {
    /// The flushes afterwards.
    pub l0: FlushList,
    /// The watermark afterwards.
    pub last_compacted_l0_sst_view_id: Option<Ulid>,
    /// The place of the first run that is taken out, counted from 0.
    pub place: usize,
    /// How many runs are taken out from this place on.
    pub count: usize,
    /// The run that comes in their place, if one does.
    pub run: Option<SortedRun>,
}

impl LsmTreeState {
    /// The tree of a segment without flushes.
    pub fn new(alloc: Global) -> LsmTreeState
        ensures { result ≡ empty_tree }
    {
        LsmTreeState {
            l0: FlushList::new(alloc),
            compacted: RunList::new(alloc),
            last_compacted_l0_sst_view_id: None,
            last_seq: None,
        }
    }

    /// Puts a flush in front. `last_seq` is the greatest sequence of the segment's flushes, this
    /// one included.
    pub(crate) fn add_l0(&mut self, view: SsTableView, last_seq: u64) -> Result<(), SlateDBError>
        ensures ok { OnOk result (self.new ≡ flushed_on view last_seq self.old) }
        ensures err { OnErr result (self.new ≡ self.old) }
        ensures memory { IsOkUnless result SlateDBError.Memory }
    {
        self.l0.push_front(view)?;
        self.last_seq = Some(last_seq);
        Ok(())
    }

    /// Makes a change. The runs are exchanged as `RunList::splice` does it. If out of memory,
    /// nothing changes.
    pub fn apply(&mut self, change: TreeChange) -> Result<(), SlateDBError>
        requires { change.place + change.count ≤ length self.old.compacted }
        ensures ok { OnOk result (self.new ≡ changed_tree change self.old) }
        ensures err { OnErr result (self.new ≡ self.old) }
        ensures memory { IsOkUnless result SlateDBError.Memory }
    {
        self.compacted
            .splice(change.place, change.count, change.run)?;
        self.l0 = change.l0;
        self.last_compacted_l0_sst_view_id = change.last_compacted_l0_sst_view_id;
        Ok(())
    }

    /// A copy.
    pub fn clone(&self) -> Result<LsmTreeState, SlateDBError>
        ensures copy { IfOk result (λ copy. copy ≡ self.now) }
        ensures memory { IsOkUnless result SlateDBError.Memory }
    {
        Ok(Clone::clone(self)?)
    }
}

impl Copies for LsmTreeState {
    fn copied(&self) -> Result<LsmTreeState, AllocError> {
        Clone::clone(self)
    }
}

/// A compactor's tree with the flushes of its writer. It has the remote flushes that are newer than
/// the local watermark, and the remote last sequence. The runs and the watermark are the local
/// ones.
pub fn merge_from_writer(
    local: &LsmTreeState,
    remote: &LsmTreeState,
) -> Result<LsmTreeState, SlateDBError>
    ensures tree { IfOk result (λ tree. tree ≡ from_writer local.now remote.now) }
    ensures memory { IsOkUnless result SlateDBError.Memory }
{
    Ok(LsmTreeState {
        l0: newer_than(local.last_compacted_l0_sst_view_id, &remote.l0)?,
        compacted: local.compacted.clone()?,
        last_compacted_l0_sst_view_id: local.last_compacted_l0_sst_view_id,
        last_seq: remote.last_seq,
    })
}

// The views before the one with the watermark's id, or all views if none has it.
fn newer_than(watermark: Option<Ulid>, views: &FlushList) -> Result<FlushList, SlateDBError>
    ensures views { IfOk result (λ newer. newer ≡ newer_than watermark views.now) }
    ensures memory { IsOkUnless result SlateDBError.Memory }
{
    match watermark {
        Some(mark) => views.before(mark),
        None => views.clone(),
    }
}

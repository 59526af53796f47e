//! What a scheduler is shown.

ghost use Rattle.std.specs.Prelude.{◌≡◌, []};
ghost use Rattle.std.specs.Option.{option_copied};
ghost use Rattle.fleet_tree.specs.Trees.{empty_tree};
ghost use Rattle.fleet_book.specs.Finishes.{with_core};

use crate::VersionedCompactions;
use fleet_tree::{LsmTreeState, SegmentList, VersionedManifest};
use std::alloc::Global;

/// What a scheduler is shown: the manifest, and the jobs that are not over, if there are records.
#[derive(Debug, Drop)]
pub struct CompactorStateView {
    pub manifest: VersionedManifest,
    pub compactions: Option<VersionedCompactions>,
}

impl CompactorStateView {
    pub fn manifest(&self) -> &VersionedManifest
        ensures { result.now ≡ self.now.manifest }
    {
        &self.manifest
    }

    /// Lets go of the trees. A state that shares them can then change its own in place. The view
    /// has no flush and no run until it is refreshed.
    pub fn forget_trees(&mut self, alloc: Global)
        ensures jobs { self.new.compactions ≡ self.old.compactions }
        ensures trees { self.new.manifest ≡ with_core
            (record self.old.manifest.manifest.core { tree = empty_tree; segments = [] })
            self.old.manifest }
    {
        self.manifest.manifest.core.tree = LsmTreeState::new(alloc);
        self.manifest.manifest.core.segments = SegmentList::new(alloc);
    }

    pub fn compactions(&self) -> Option<&VersionedCompactions>
        ensures { option_copied result ≡ self.now.compactions }
    {
        self.compactions.as_ref()
    }
}

//! The flushes and the runs that a job takes from a tree.

ghost use Rattle.std.specs.Prelude.{◌≡◌, ◌==◌, ◌++◌, find, IfOk, IsOkUnless, OnOk};
ghost use Rattle.std.specs.Option.{option_copied, option_to_list};
ghost use Rattle.fleet_jobs.specs.Sources.{run_id_of, view_id_of};
ghost use Rattle.fleet_jobs.specs.Taken.{l0_in, named_runs, named_views, run_with, runs_in, taken_runs, taken_views, tree_in, view_with};
ghost use Rattle.fleet_jobs.specs.Specs.{segment_of};

use crate::{Compaction, CompactionSpec, SourceId};
use fleet_rows::{Copies, SlateDBError, Ulid};
use fleet_tree::{LsmTreeState, ManifestCore, SharedList, SortedRun, SsTableView, ViewList};
use std::alloc::{AllocError, Global};

impl Compaction {
    /// The flushes among the sources, in the order of the sources, as the tree of the job's segment
    /// has them. A flush that the tree does not have is left out.
    pub fn get_l0_sst_views(
        &self,
        alloc: Global,
        core: &ManifestCore,
    ) -> Result<ViewList, SlateDBError>
        ensures views { IfOk result (λ views. views ≡ taken_views self.now.spec core.now) }
        ensures memory { IsOkUnless result SlateDBError.Memory }
    {
        ViewList::from_vec(alloc, views_of(alloc, self.spec(), core)?)
    }

    /// The runs among the sources, in the order of the sources, as the tree of the job's segment
    /// has them. A run that the tree does not have is left out.
    pub fn get_sorted_runs(
        &self,
        alloc: Global,
        core: &ManifestCore,
    ) -> Result<SharedList<SortedRun>, SlateDBError>
        ensures runs { IfOk result (λ runs. runs ≡ taken_runs self.now.spec core.now) }
        ensures memory { IsOkUnless result SlateDBError.Memory }
    {
        SharedList::from_vec(alloc, runs_of(alloc, self.spec(), core)?)
    }
}

// Copies of the flushes that a job with this spec takes.
pub(crate) fn views_of(
    alloc: Global,
    spec: &CompactionSpec,
    core: &ManifestCore,
) -> Result<Vec<SsTableView>, AllocError>
    ensures { IfOk result (λ views. views.items ≡ taken_views spec.now core.now) }
{
    named_views(alloc, spec.sources(), tree_of(spec, core))
}

// Copies of the runs that a job with this spec takes.
pub(crate) fn runs_of(
    alloc: Global,
    spec: &CompactionSpec,
    core: &ManifestCore,
) -> Result<Vec<SortedRun>, AllocError>
    ensures { IfOk result (λ runs. runs.items ≡ taken_runs spec.now core.now) }
{
    named_runs(alloc, spec.sources(), tree_of(spec, core))
}

fn tree_of<'a>(spec: &CompactionSpec, core: &'a ManifestCore) -> Option<&'a LsmTreeState>
    ensures { option_copied result ≡ tree_in (segment_of spec.now) core.now }
{
    core.tree_for_segment(spec.segment().as_slice())
}

// Copies of the flushes that the sources name in the tree, in the order of the sources.
fn named_views(
    alloc: Global,
    sources: &[SourceId],
    tree: Option<&LsmTreeState>,
) -> Result<Vec<SsTableView>, AllocError>
    ensures { IfOk result
        (λ named. named.items ≡ named_views sources.now (l0_in (option_copied tree.entry))) }
{
    let mut named = Vec::new(alloc);
    'sources: for source in sources {
        add_copy(&mut named, named_view(source, tree))?;
    }
    Ok(named)
}

fn named_view<'a>(source: &SourceId, tree: Option<&'a LsmTreeState>) -> Option<&'a SsTableView>
    ensures { option_copied result
        ≡ view_with (view_id_of source.now) (l0_in (option_copied tree.entry)) }
{
    match source {
        SourceId::SstView(id) => view_in(*id, tree),
        SourceId::SortedRun(_) => None,
    }
}

fn view_in(id: Ulid, tree: Option<&LsmTreeState>) -> Option<&SsTableView>
    ensures { option_copied result
        ≡ find (λ view. view.id == id) (l0_in (option_copied tree.entry)) }
{
    match tree {
        Some(tree) => tree.l0.with_id(id),
        None => None,
    }
}

// Copies of the runs that the sources name in the tree, in the order of the sources.
fn named_runs(
    alloc: Global,
    sources: &[SourceId],
    tree: Option<&LsmTreeState>,
) -> Result<Vec<SortedRun>, AllocError>
    ensures { IfOk result
        (λ named. named.items ≡ named_runs sources.now (runs_in (option_copied tree.entry))) }
{
    let mut named = Vec::new(alloc);
    'sources: for source in sources {
        add_copy(&mut named, named_run(source, tree))?;
    }
    Ok(named)
}

fn named_run<'a>(source: &SourceId, tree: Option<&'a LsmTreeState>) -> Option<&'a SortedRun>
    ensures { option_copied result
        ≡ run_with (run_id_of source.now) (runs_in (option_copied tree.entry)) }
{
    match source {
        SourceId::SortedRun(id) => run_in(*id, tree),
        SourceId::SstView(_) => None,
    }
}

fn run_in(id: u32, tree: Option<&LsmTreeState>) -> Option<&SortedRun>
    ensures { option_copied result
        ≡ find (λ run. run.id == id) (runs_in (option_copied tree.entry)) }
{
    match tree {
        Some(tree) => tree.compacted.with_id(id),
        None => None,
    }
}

// Adds a copy of the item, if there is one.
fn add_copy<T: Copies + Drop>(items: &mut Vec<T>, item: Option<&T>) -> Result<(), AllocError>
    ensures { OnOk result
        (items.new.items ≡ items.old.items ++ option_to_list (option_copied item.entry)) }
{
    if let Some(item) = item {
        items.push(item.copied()?)?;
    }
    Ok(())
}

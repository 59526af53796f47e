//! Whether a poll changed the manifest.

ghost use Rattle.std.specs.Prelude.{◌≡◌, ◌==◌, Bool};
ghost use Rattle.std.specs.Cmp.Lexicographic.{pointwise};
ghost use Rattle.fleet_model.specs.Store.{Manifest};
ghost use Rattle.fleet_model.specs.Work.PollStates.{PollState};
ghost use Rattle.step_model.specs.Steps.PollSteps.{is_unchanged};
ghost use Rattle.fleet_tree.specs.Trees.{RunFlushes, trees_of};
ghost use Rattle.fleet_change.specs.Same.{HasTreesOf, same_flush, same_manifest, same_nodes, same_run, same_table, same_tree};

use bytes::Bytes;
use fleet_tree::{Items, LsmTreeState, ManifestCore, SortedRun, SsTableView};

// What is compared by names and tables.
trait Same {
    ghost same: { Self → Self → Bool };

    fn is_same(&self, other: &Self) -> bool
        ensures { result ≡ same self.now other.now };
}

impl Same for SsTableView {
    ghost same = { same_flush };

    fn is_same(&self, other: &SsTableView) -> bool {
        self.id == other.id && self.sst.id == other.sst.id
    }
}

impl Same for SortedRun {
    ghost same = { same_run };

    fn is_same(&self, other: &SortedRun) -> bool {
        self.id == other.id && have_same_tables(self.sst_views(), other.sst_views())
    }
}

impl Same for (Bytes, LsmTreeState) {
    ghost same = { same_tree };

    fn is_same(&self, other: &(Bytes, LsmTreeState)) -> bool {
        have_same_nodes(&self.1, &other.1)
    }
}

// There are as many things on both sides, and they are the same in their order.
fn are_same<T: Same + Drop>(these: Items<'_, T>, others: Items<'_, T>) -> bool
    ensures { result ≡ pointwise T.same these.entry others.entry }
{
    let mut left = others;
    'these: for this in these {
        match left.next() {
            Some(other) => {
                if !this.is_same(other) {
                    return false;
                }
            }
            None => return false,
        }
    }
    left.next().is_none()
}

// The tables are the same in their order.
fn have_same_tables(these: &[SsTableView], others: &[SsTableView]) -> bool
    ensures { result ≡ pointwise same_table these.now others.now }
{
    if these.len() != others.len() {
        return false;
    }
    'places: for place in 0..these.len() {
        let (this, other) = (&these[place], &others[place]);
        if this.sst.id != other.sst.id {
            return false;
        }
    }
    true
}

// The trees have the same nodes in the same order.
fn have_same_nodes(tree: &LsmTreeState, other: &LsmTreeState) -> bool
    ensures { result ≡ same_nodes tree.now other.now }
{
    are_same(tree.l0.iter(), other.l0.iter())
        && are_same(tree.compacted.iter(), other.compacted.iter())
}

// The manifests have the same nodes in the same order, tree by tree, and the same horizon.
fn are_alike(got: &ManifestCore, now: &ManifestCore) -> bool
    ensures { result ≡ same_manifest got.now now.now }
{
    have_same_nodes(&got.tree, &now.tree)
        && are_same(
            Items::of_slice(got.segments.as_slice()),
            Items::of_slice(now.segments.as_slice()),
        )
        && got.horizon == now.horizon
}

/// Whether both have the same nodes in the same order, tree by tree, and the same horizon. Nodes
/// are compared by name and tables.
pub fn is_unchanged(got: &ManifestCore, now: &ManifestCore) -> bool
    ensures same { result ≡ same_manifest got.now now.now }
    ensures model { (flushes : RunFlushes) (manifest : Manifest) (p : PollState)
        → HasTreesOf got.now manifest → p.trees ≡ trees_of flushes now.now
        → p.horizon ≡ now.now.horizon → result ≡ is_unchanged manifest p }
{
    are_alike(got, now)
}

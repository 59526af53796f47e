//! Where sources are among the runs of a tree.

ghost use Rattle.std.specs.Prelude.{◌≡◌, ◌≤◌, drop, is_some, length, map};
ghost use Rattle.fleet_model.specs.Nodes.{Run};
ghost use Rattle.fleet_model.specs.Sources.{after_front, older_nodes};
ghost use Rattle.fleet_jobs.specs.Sources.{name_of};

use crate::{SourceId, is_same};
use fleet_tree::{RunList, Runs};

/// Whether the sources are among the runs, one after the other.
///
/// They are looked for from the first run on that is the first source, which `RunList::place_of`
/// finds. If n sources are there, n runs are looked at after that.
pub fn is_run_stretch(sources: &[SourceId], runs: &RunList) -> bool
    ensures { result ≡ is_some
        (older_nodes (map name_of sources.now) (map (λ run. Run run.id) runs.now)) }
{
    let Some(first) = sources.first() else {
        return true;
    };
    match first.maybe_unwrap_sorted_run() {
        Some(id) => are_among(sources, runs.iter_from(runs.place_of(id))),
        None => false,
    }
}

// Whether the sources are among the runs, one after the other. Each place is looked at in turn.
fn are_among(sources: &[SourceId], runs: Runs<'_>) -> bool
    ensures { result ≡ is_some
        (older_nodes (map name_of sources.now) (map (λ run. Run run.id) runs.entry)) }
{
    let mut rest = runs;
    'places: loop {
        if are_in_front(sources, rest.clone()) {
            return true;
        }
        if rest.next().is_none() {
            return false;
        }
    }
}

/// Whether the runs begin with the sources, one after the other.
pub fn are_in_front(sources: &[SourceId], runs: Runs<'_>) -> bool
    ensures { result ≡ is_some
        (after_front (map name_of sources.now) (map (λ run. Run run.id) runs.entry)) }
{
    let mut rest = runs;
    'sources: for source in sources {
        match rest.next() {
            Some(run) if is_same(source, SourceId::SortedRun(run.id)) => {}
            _ => return false,
        }
    }
    true
}

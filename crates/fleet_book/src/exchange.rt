//! Which part of a tree's runs a job exchanges.

ghost use Rattle.std.specs.Prelude.{◌≡◌, ◌+◌, ◌≤◌, drop, length, take_while, IfSome};
ghost use Rattle.std.specs.Option.{option_copied};
ghost use Rattle.fleet_tree.specs.Lists.{spliced};
ghost use Rattle.fleet_book.specs.Exchanges.{after_flushes, is_flush};
ghost use Rattle.fleet_book.specs.Finishes.{kept_runs, with_output};

use fleet_jobs::{SourceId, are_in_front};
use fleet_tree::{RunList, SortedRun};

/// Runs that stand one after the other: the place of the first one, counted from 0, and how many
/// they are.
#[derive(Debug, Drop)]
pub(crate) struct Part {
    pub(crate) place: usize,
    pub(crate) count: usize,
}

/// The runs that the sources name, if the runs that stay are in order with the output in the place
/// of these. The flushes come first among such sources.
pub(crate) fn exchanged_part(
    sources: &[SourceId],
    output: Option<&SortedRun>,
    runs: &RunList,
) -> Option<Part>
    ensures within { IfSome result (λ part. part.place + part.count ≤ length runs.now) }
    ensures runs { IfSome result
        (λ part. spliced part.place part.count (option_copied output.entry) runs.now
        ≡ with_output (option_copied output.entry) (kept_runs sources.now runs.now)) }
{
    let named = after_flushes(sources);
    let place = first_place(named, output, runs);
    let count = named.len();
    if count as u64 > runs.len() - place as u64
        || !are_in_front(named, runs.iter_from(place))
        || !runs.fits(place, count, output)
    {
        return None;
    }
    Some(Part { place, count })
}

// The sources after the flushes that come first.
fn after_flushes(sources: &[SourceId]) -> &[SourceId]
    ensures { result.now ≡ after_flushes sources.now }
{
    behind(sources, flushes_in_front(sources))
}

// The items from this place on.
pub(crate) fn behind<T>(items: &[T], place: usize) -> &[T]
    requires { place ≤ length items.now }
    ensures { result.now ≡ drop place items.now }
{
    &items[place..]
}

fn flushes_in_front(sources: &[SourceId]) -> usize
    ensures { result ≡ length (take_while is_flush sources.now) }
{
    sources.iter().take_while(|source| is_flush(source)).count()
}

pub(crate) fn is_flush(source: &SourceId) -> bool
    ensures { result ≡ is_flush source.now }
{
    source.maybe_unwrap_sst_view().is_some()
}

// Where the first of these sources is among the runs, or where the output comes if there are none.
fn first_place(named: &[SourceId], output: Option<&SortedRun>, runs: &RunList) -> usize
    ensures within { result ≤ length runs.now }
{
    match named.first() {
        Some(source) => place_of(source, runs),
        None => output_place(output, runs),
    }
}

fn place_of(source: &SourceId, runs: &RunList) -> usize
    ensures within { result ≤ length runs.now }
{
    match source.maybe_unwrap_sorted_run() {
        Some(id) => runs.place_of(id),
        None => 0,
    }
}

fn output_place(output: Option<&SortedRun>, runs: &RunList) -> usize
    ensures within { result ≤ length runs.now }
{
    match output {
        Some(run) => runs.place_for(run.id),
        None => 0,
    }
}

//! Series of runs of similar sizes.

ghost use Rattle.std.specs.Prelude.{◌≡◌, ◌≤◌, [], ◌&&◌, not, nat_le, drop, length, option_map, take, IfSome, Some};
ghost use Rattle.fleet_model.specs.Nodes.{Run, names_contain};
ghost use Rattle.sched_model.specs.Series.{first_series, is_similar, is_taken_again, lesser, longest, may_join, oldest, similar_series, threshold};

use crate::SizeTieredCompactionSchedulerOptions;
use crate::sized_nodes::{SizedRun, oldest_runs};
use fleet_jobs::{NodeSet, SourceId};

fn threshold(options: &SizeTieredCompactionSchedulerOptions, size: u64) -> u128
    ensures { result ≡ threshold options.now size }
{
    let numerator = options.include_size_numerator as u128;
    let denominator = options.include_size_denominator as u128;
    size as u128 * numerator / denominator
}

fn is_similar(
    options: &SizeTieredCompactionSchedulerOptions,
    least: Option<u64>,
    run: &SizedRun,
) -> bool
    ensures { result ≡ is_similar options.now least run.now }
{
    match least {
        Some(least) => run.size as u128 <= threshold(options, least),
        None => true,
    }
}

fn lesser(least: Option<u64>, run: &SizedRun) -> Option<u64>
    ensures { result ≡ lesser least run.now }
{
    match least {
        Some(least) => Some(least.min(run.size)),
        None => Some(run.size),
    }
}

// Whether a series of similar sizes from the first run on is long enough for a whole job.
fn is_long(options: &SizeTieredCompactionSchedulerOptions, runs: &[SizedRun]) -> bool
    ensures { result ≡ nat_le options.now.most (length (similar_series options.now runs.now)) }
{
    let wanted = options.max_compaction_sources;
    let mut least = None;
    'runs: for i in 0..runs.len() {
        if i as u64 >= wanted {
            return true;
        }
        let run = &runs[i];
        if !is_similar(options, least, run) {
            return false;
        }
        least = lesser(least, run);
    }
    runs.len() as u64 >= wanted
}

/// Whether a run of this size, made in front of these older runs, would at once be taken again.
pub fn is_taken_again(
    options: &SizeTieredCompactionSchedulerOptions,
    size: u64,
    older: &[SizedRun],
) -> bool
    ensures { result ≡ is_taken_again options.now size older.now }
{
    match older.first() {
        Some(next) => is_similar(options, Some(size), next) && is_long(options, older),
        None => false,
    }
}

// Whether the run may be added to a series of unused runs that may be joined. `least` is the least
// size before the run, and `size` the sum of all sizes up to the run.
fn joins(
    options: &SizeTieredCompactionSchedulerOptions,
    used: &NodeSet,
    least: Option<u64>,
    size: u64,
    run: &SizedRun,
    older: &[SizedRun],
) -> bool
    ensures { result ≡ is_similar options.now least run.now
        && (not (names_contain used.now (Run run.now.id))
        && not (is_taken_again options.now size older.now)) }
{
    is_similar(options, least, run)
        && !used.contains(SourceId::SortedRun(run.id))
        && !is_taken_again(options, size, older)
}

// The length of the longest series of runs, from the first one on, that may be joined.
fn series_len(
    options: &SizeTieredCompactionSchedulerOptions,
    used: &NodeSet,
    runs: &[SizedRun],
) -> usize
    ensures len { result ≡ length (longest (may_join options.now used.now) [] runs.now) }
    ensures within { result ≤ length runs.now }
{
    let mut least = None;
    let mut size = 0u64;
    'runs: for i in 0..runs.len() {
        let run = &runs[i];
        size = size.saturating_add(run.size);
        if !joins(options, used, least, size, run, &runs[i + 1..]) {
            return i;
        }
        least = lesser(least, run);
    }
    runs.len()
}

/// The sources of the first series that is long enough, from the newest run on.
pub fn first_series<'a>(
    options: &SizeTieredCompactionSchedulerOptions,
    used: &NodeSet,
    runs: &'a [SizedRun],
) -> Option<&'a [SizedRun]>
    ensures series { option_map (λ series. series.now) result
        ≡ first_series options.now used.now runs.now }
    ensures some { IfSome result (λ series. 1 ≤ length series.now) }
{
    'starts: for start in 0..runs.len() {
        let rest = runs_from(runs, start);
        let len = series_len(options, used, rest);
        if len as u64 >= options.min_compaction_sources {
            return Some(series_sources(options, rest, len));
        }
    }
    None
}

fn runs_from(runs: &[SizedRun], start: usize) -> &[SizedRun]
    requires { start ≤ length runs.now }
    ensures { result.now ≡ drop start runs.now }
{
    &runs[start..]
}

// The oldest runs of a series, at most as many as a job may have.
fn series_sources<'a>(
    options: &SizeTieredCompactionSchedulerOptions,
    runs: &'a [SizedRun],
    len: usize,
) -> &'a [SizedRun]
    requires { len ≤ length runs.now }
    ensures { result.now ≡ oldest options.now.most (take len runs.now) }
{
    oldest_runs(options.max_compaction_sources, &runs[..len])
}

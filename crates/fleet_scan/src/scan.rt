//! Scans of a range of keys.

ghost use Rattle.std.specs.Prelude.{◌≡◌, false, IfOk, IsOkUnless};
ghost use Rattle.row_model.specs.Scans.{scanned_pairs};
ghost use Rattle.fleet_exec.specs.Ranges.{AreSources};
ghost use Rattle.fleet_range.specs.Keys.{range_of};
ghost use Rattle.fleet_rows.specs.declared.errors.SlateDBError.TheVariants as SlateDBError;
ghost use Rattle.fleet_scan.specs.Answered.{Nexts};
ghost use Rattle.fleet_scan.specs.Sources.{all_rows};

use crate::KeyAnswer;
use crate::key_rows::ReadPoint;
use crate::next::next_answer;
use crate::open::ranged_merge;
use fleet_fold::MergeOperator;
use fleet_iter::MergeIterator;
use fleet_range::BytesRange;
use fleet_rows::{ListOf, SlateDBError};
use fleet_table::{RunData, RunIterator};
use std::alloc::Global;
use std::marker::Model;

/// The sources of a scan. Each table of level 0 is a run of its own. `fleet_exec::are_sources` tests
/// what a scan requires of them.
pub type ScanSources = ListOf<RunData>;

/// A scan of the keys of a range, at a sequence and a moment. It answers each key as a read does:
/// with a value, with the operator's refusal, or not at all. Contracts see the answers left, and
/// whether the scan failed.
#[derive(Drop)]
pub struct Scan<'a, O: MergeOperator> {
    operator: &'a O,
    point: ReadPoint,
    // The rows of the range that are left, those of all sources in order.
    rows: MergeIterator<RunIterator<'a>>,
    failed: bool,
}

impl<'a, O: MergeOperator> Model for Scan<'a, O> {
    ghost use Rattle.std.specs.Prelude.{⊤};
    ghost use Rattle.fleet_iter.specs.MergeState as merge;
    ghost use Rattle.fleet_table.specs.Iterator.{state_of};
    ghost use Rattle.fleet_scan.specs.Answered.{Scanning};
    ghost use Rattle.fleet_scan.specs.ScanState.{scanning, Holds};

    ghost Value = { Scanning };

    ghost view = { λ s. scanning (O.merged (O.settings s.operator.now)) s.point
        (merge.state_of state_of s.rows) s.failed };

    ghost invariant = { λ s. merge.IsSound (λ _. ⊤) state_of s.rows
        × Holds s.failed (merge.state_of state_of s.rows) };
}

impl<'a, O: MergeOperator> Scan<'a, O> {
    /// A scan of the sources' rows whose keys lie in the range. It sees rows with at most the
    /// sequence `seq`, and those whose expiry is after `now`. Only the first row of each source is
    /// read yet.
    pub fn new(
        alloc: Global,
        sources: &'a ScanSources,
        range: &'a BytesRange,
        seq: u64,
        now: i64,
        operator: &'a O,
    ) -> Result<Self, SlateDBError>
        requires { AreSources sources.now }
        ensures answers { IfOk result (λ scan. scan.left ≡ scanned_pairs
            (O.merged (O.settings operator.now)) (range_of range.now) seq now
            (all_rows sources.now)) }
        ensures alive { IfOk result (λ scan. scan.failed ≡ false) }
        ensures memory { IsOkUnless result SlateDBError.Memory }
    {
        let rows = ranged_merge(alloc, sources.as_slice(), range)?;
        Ok(Scan {
            operator,
            point: ReadPoint { seq, moment: now },
            rows,
            failed: false,
        })
    }
}

impl<O: MergeOperator> Scan<'_, O> {
    /// The next key that has an answer, with its answer. The keys rise. A key whose operands the
    /// operator refuses to merge has this refusal as its answer, and the scan goes on after it. Of
    /// each source, one row past the rows of the key is read.
    pub fn next(&mut self, alloc: Global) -> Result<Option<KeyAnswer>, SlateDBError>
        ensures { Nexts self.old self.new result }
    {
        if self.failed {
            return Err(SlateDBError::IteratorFailed);
        }
        let point = self.point;
        match next_answer(alloc, self.operator, point, &mut self.rows) {
            Ok(answer) => Ok(answer),
            Err(error) => {
                self.failed = true;
                Err(error)
            }
        }
    }
}

//! A use of scans: the first answers of a range.

ghost use Rattle.std.specs.Prelude.{◌≡◌, false, map, take, IfOk, IsOkUnless};
ghost use Rattle.row_model.specs.Scans.{scanned_pairs};
ghost use Rattle.fleet_exec.specs.Ranges.{AreSources};
ghost use Rattle.fleet_range.specs.Keys.{range_of};
ghost use Rattle.fleet_rows.specs.declared.errors.SlateDBError.TheVariants as SlateDBError;
ghost use Rattle.fleet_scan.specs.Answered.{pair_of};
ghost use Rattle.fleet_scan.specs.Sources.{all_rows};

use fleet_fold::MergeOperator;
use fleet_range::BytesRange;
use fleet_rows::SlateDBError;
use fleet_scan::{KeyAnswer, Scan, ScanSources};
use std::alloc::Global;

/// The next answers of a scan, at most `limit` of them. There are fewer if no more are left.
pub fn next_answers<O: MergeOperator>(
    alloc: Global,
    scan: &mut Scan<'_, O>,
    limit: usize,
) -> Result<Vec<KeyAnswer>, SlateDBError>
    requires { scan.old.failed ≡ false }
    ensures answers { IfOk result
        (λ answers. map pair_of answers.items ≡ take limit scan.old.left) }
    ensures memory { IsOkUnless result SlateDBError.Memory }
{
    let mut answers = Vec::new(alloc);
    'keys: while answers.len() < limit {
        match scan.next(alloc)? {
            Some(answer) => answers.push(answer)?,
            None => return Ok(answers),
        }
    }
    Ok(answers)
}

/// The first answers of a range, at most `limit` of them.
pub fn first_answers<O: MergeOperator>(
    alloc: Global,
    sources: &ScanSources,
    range: &BytesRange,
    seq: u64,
    now: i64,
    operator: &O,
    limit: usize,
) -> Result<Vec<KeyAnswer>, SlateDBError>
    requires { AreSources sources.now }
    ensures answers { IfOk result (λ answers. map pair_of answers.items ≡ take limit
        (scanned_pairs (O.merged (O.settings operator.now)) (range_of range.now) seq now
        (all_rows sources.now))) }
    ensures memory { IsOkUnless result SlateDBError.Memory }
{
    let mut scan = Scan::new(alloc, sources, range, seq, now, operator)?;
    Ok(next_answers(alloc, &mut scan, limit)?)
}

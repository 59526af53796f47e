//! The rows of a job: operands are merged, and then retention keeps some rows of each key.

ghost use Rattle.std.specs.Prelude.{◌≡◌, None, true};
ghost use Rattle.row_model.specs.Rows.{IsStrictlyOrdered};
ghost use Rattle.row_model.specs.Fold.{IsLawful};
ghost use Rattle.fleet_rows.specs.Settings.{settings_of};
ghost use Rattle.fleet_fold.specs.Jobs.{GivesJob, KeepsReads, IsReady};
ghost use Rattle.fleet_fold.specs.JobState as job_state;

use crate::{BatchMerger, MergeOperator, MergeOperatorIterator, RetentionIterator};
use fleet_iter::{RowEntryIterator, ordered_rows_rise};
use fleet_rows::Settings;
use std::alloc::Global;

/// An iterator over a job's rows. It merges operands that are at or below the cut and have the same
/// expiry, and then keeps some rows of each key.
pub type JobIterator<'o, O, T> = RetentionIterator<MergeOperatorIterator<'o, O, T>>;

fn is_lawful<B: BatchMerger>(_operator: &B)
    ensures { IsLawful (B.fold _operator.now) }
{}

/// Makes an iterator over the rows of a job. `rows` are the rows of the job's sources in order, as
/// a merge without dedup gives them. If the operator refuses a fold, the iterator gives rows of the
/// keys before the refusing key, and then the operator's error. If the refused group is the first
/// of its key, the rows of the last key before it are not given: retention ends a key only after it
/// has seen the next one.
pub fn job_iterator<'o, O: MergeOperator, T: RowEntryIterator>(
    alloc: Global,
    operator: &'o O,
    rows: T,
    settings: Settings,
) -> JobIterator<'o, O, T>
    requires sound { T.sound rows }
    requires alive { (T.state rows).failure ≡ None }
    requires whole { (T.state rows).whole ≡ true }
    requires ordered { IsStrictlyOrdered (T.state rows).rows }
    ensures job { GivesJob (O.merged (O.settings operator.now)) (settings_of settings)
        (T.state rows).rows (job_state.state_of O.settings O.merged T.state result) }
    ensures reads { KeepsReads (O.merged (O.settings operator.now)) (settings_of settings)
        (T.state rows).rows (job_state.state_of O.settings O.merged T.state result) }
    ensures ready { IsReady (T.state rows) (job_state.state_of O.settings O.merged T.state result) }
    ensures sound { job_state.IsSound O.settings O.merged T.sound T.state result }
{
    is_lawful(operator);
    ordered_rows_rise();
    let folded = MergeOperatorIterator::new(operator, rows, false, Some(settings.cut));
    RetentionIterator::new(alloc, folded, settings)
}

//! Laws on what the iterators of this crate make of rows. Each function has an empty body, and its
//! clause is the law.

ghost use Rattle.row_model.specs.Fold.{IsLawful, Operator};
ghost use Rattle.fleet_fold.specs.Filter.{FiltersSeeTheKey};
ghost use Rattle.fleet_fold.specs.Jobs.{FoldsOneKey, FoldsMakeJobs, FoldsBeginJobs, JobsKeepReads, RefusesByOperator};

/// Under a lawful operator, merging the operands of one key in batches gives the model's folded
/// rows. Operands are merged at or below the cut, and only with the same expiry. The merge is
/// refused exactly if the model's fold is.
pub fn folds_one_key()
    ensures { (merge : Operator) → IsLawful merge → FoldsOneKey merge }
{}

/// Under a lawful operator and for strictly ordered rows, folding is refused exactly if the job is
/// not whole. If the job is whole, what retention keeps of the folded rows is the job's rows.
pub fn folds_make_jobs()
    ensures { (merge : Operator) → IsLawful merge → FoldsMakeJobs merge }
{}

/// Under a lawful operator and for strictly ordered rows, what retention keeps of the folded rows
/// begins the job's rows, even if a fold refuses. The last key that has folded rows is left out.
/// The kept rows have at least all that the job makes of the keys before the last key below the
/// refusing one.
pub fn folds_begin_jobs()
    ensures { (merge : Operator) → IsLawful merge → FoldsBeginJobs merge }
{}

/// For strictly ordered rows, only the operator refuses a fold. The error has the message with
/// which it refused a fold over operands of one key. It refused a batch of them, or it refused the
/// batches' results, over the value of the operands' base or without one.
pub fn refuses_by_operator()
    ensures { (merge : Operator) → RefusesByOperator merge }
{}

/// Under a lawful operator and for strictly ordered rows, the rows of an iterator over a whole job
/// read as the rows of the job's sources do. This holds at each sequence from the cut on, and at
/// each moment from the tick on. Any rows may come before them. Any rows may come after them,
/// unless the job made the last run.
pub fn jobs_keep_reads()
    ensures { (merge : Operator) → IsLawful merge → JobsKeepReads merge }
{}

/// An iterator that resumes after a cursor, over a filter, shows the filter all rows from the
/// cursor's key on. These include rows of that key that are written already. Of what the filter
/// leaves, the first rows that are written already are not given again.
pub fn filters_see_the_key()
    ensures { FiltersSeeTheKey }
{}

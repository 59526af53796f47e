//! Laws on what a compaction job keeps of ordered rows.

ghost use Rattle.row_laws.specs.KeptReads.{JobsKeepReads, ReadsAreKept};
ghost use Rattle.row_laws.specs.Parts.{JobsCutBetweenKeys, JobsKeepPlaces};
ghost use Rattle.row_laws.specs.Refusals.{WholeUnlessRefused};
ghost use Rattle.row_laws.specs.Resume.{JobsKeepOrder};
ghost use Rattle.row_model.specs.Fold.{IsLawful, Operator};

/// The rows that a job keeps of one key's rows may replace them. Under a lawful operator, every
/// read from the job's cut and tick on answers as before, whatever newer rows are above. Any older
/// rows may be below, unless the job wrote the last run of its tree and so dropped old tombstones.
pub fn reads_are_kept()
    ensures { (merge : Operator) → IsLawful merge → ReadsAreKept merge }
{}

/// If no fold refuses, the rows that a job makes may replace its sources' rows. Under a lawful
/// operator, every read of every key from the job's cut and tick on answers as before. Any newer
/// rows may be above, and any older rows may be below, unless the job wrote the last run of its
/// tree.
pub fn jobs_keep_reads()
    ensures { (merge : Operator) → IsLawful merge → JobsKeepReads merge }
{}

/// A job makes strictly ordered rows of strictly ordered rows, so its rows may be stored as tables.
pub fn jobs_keep_order()
    ensures { (merge : Operator) → JobsKeepOrder merge }
{}

/// Each row that a job makes has the key and the sequence of a row of its sources.
pub fn jobs_keep_places()
    ensures { (merge : Operator) → JobsKeepPlaces merge }
{}

/// A job of ordered rows may be cut at a key, since no fold reaches from one key into another. It
/// makes the rows below that key and then, if that part is whole, the other rows.
pub fn jobs_cut_between_keys()
    ensures { (merge : Operator) → JobsCutBetweenKeys merge }
{}

/// A job of ordered rows is whole, and then the operator refuses in no key, or it stops. A job that
/// stops has a first key in which the operator refuses, and its rows are exactly those of the keys
/// below it.
pub fn whole_unless_refused()
    ensures { (merge : Operator) → WholeUnlessRefused merge }
{}

//! Laws about what the calls of this crate make of ranges, and about the jobs of an executor. Each
//! law is a function with an empty body, and its clause states the law.

ghost use Rattle.row_model.specs.Fold.{Operator};
ghost use Rattle.fleet_exec.specs.Attempts.{AttemptsFollowJobs};
ghost use Rattle.fleet_exec.specs.Turns.{FinishMakesJob, RangesMakeJob, TakenAndFinishedMakeAll, TakenAreFirst};

/// Let `next_table` give tables of a range one after the other, each after the last row of the
/// table before. Then the tables have the first rows of what a job makes of the range. They have as
/// many rows as were asked for, or all rows if there are fewer.
pub fn taken_are_first()
    ensures { (merge : Operator) → TakenAreFirst merge }
{}

/// Let a range be taken table by table, and let all that is left after these tables be finished.
/// Then all its tables have, in order, all that a job makes of the range, and no fold refuses in
/// it.
pub fn taken_and_finished_make_all()
    ensures { (merge : Operator) → TakenAndFinishedMakeAll merge }
{}

/// Let ranges follow each other and have every key, as the ranges of a plan do. Let each be taken
/// table by table and then finished. Then their rows, one range after the other, are all that the
/// job makes at once. Each range may be taken by its own numbers of rows, and so be cut between two
/// versions of a key.
pub fn ranges_make_job()
    ensures { (merge : Operator) → RangesMakeJob merge }
{}

/// Let ranges follow each other and have every key. Let tables be taken of each, and let one call
/// of `finish_ranges` finish all of them. Then the rows taken and the rows of the call are, one
/// range after the other, all that the job makes.
pub fn finish_makes_job()
    ensures { (merge : Operator) → FinishMakesJob merge }
{}

/// Let an attempt of a worker be seen of each active job of an executor, under the job's id. Then
/// the executor's calls find, add and end attempts as a worker does in the definitions, by rising
/// id.
pub fn attempts_follow_jobs()
    ensures { AttemptsFollowJobs }
{}

//! Worked scripts. Each function has an empty body, and its clause names a script with the replies
//! of a fresh fleet. The scripts are in specs/, in the files whose names begin with Worked. A fleet
//! gives no other replies to a script of `MustReply`.

ghost use Rattle.std.specs.Prelude.{◌≡◌, map};
ghost use Rattle.std.specs.List.{concat};
ghost use Rattle.row_model.specs.Append.{append};
ghost use Rattle.script_model.specs.Defaults.{with_quiet_scheduler};
ghost use Rattle.script_model.specs.Examples.Worked.{MayReply, MustReply, newline};
ghost use Rattle.script_model.specs.Examples.WorkedCoordinators.{fence, moved_run_takeover, standing_put, takeover};
ghost use Rattle.script_model.specs.Examples.WorkedGenerated.{generated_from_seven};
ghost use Rattle.script_model.specs.Examples.WorkedInputs.{append_unmarked, with_levels, with_one_proposed_twice, with_two_picks};
ghost use Rattle.script_model.specs.Examples.WorkedJobs.{destinations, drains, moved_tables, no_records, oldest_flush, proposed_twice, shared_source, two_segments};
ghost use Rattle.script_model.specs.Examples.WorkedParties.{boundary_of_silence, cut_inside_a_key, older_attempt, stopped_worker};
ghost use Rattle.script_model.specs.Examples.WorkedLevels.{LevelsArePicked, settled_by_nobody, settled_levels, settled_moves, struck_settle};
ghost use Rattle.script_model.specs.Examples.WorkedRefusal.{refusing_operator};
ghost use Rattle.script_model.specs.Examples.WorkedRetention.{horizon_alone, job_with_cut, job_without_cut, kept_by_floor, kept_by_time};
ghost use Rattle.script_model.specs.Examples.WorkedRows.{deleted_key, expiry_classes, fold_before_expiry, no_resurrection, refused_flushes, struck_flush};
ghost use Rattle.script_model.specs.Examples.WorkedScans.{scanned_pages, scanned_to_refusal};
ghost use Rattle.script_model.specs.Examples.WorkedSweeps.{struck_sweep, swept, swept_beside_worker};
ghost use Rattle.script_model.specs.Generated.{generated_lines};
ghost use Rattle.script_model.specs.Script.{script_text};

/// A job compacts a tombstone and two values of a key into the last run, under floor 3. Reads from
/// the floor on answer as before. The oldest version is gone, and a read below the horizon is
/// refused.
pub fn deleted_key()
    ensures { MustReply (with_quiet_scheduler append) deleted_key }
{}

/// A job folds operands with the same stamps into one. An operand with another expiry stays apart,
/// and expires on its own.
pub fn expiry_classes()
    ensures { MustReply (with_quiet_scheduler append) expiry_classes }
{}

/// A job folds an operand and a value with the same expiry. Both have expired, so no row of the key
/// is left.
pub fn fold_before_expiry()
    ensures { MustReply (with_quiet_scheduler append) fold_before_expiry }
{}

/// A tombstone in a run above an older run is kept, so the older value does not come back. A job
/// that makes the last run drops the tombstone.
pub fn no_resurrection()
    ensures { MustReply (with_quiet_scheduler append) no_resurrection }
{}

/// A flush is refused for each of the six faults. A read at a moment before the tick is refused.
pub fn refused_flushes()
    ensures { MustReply (with_quiet_scheduler append) refused_flushes }
{}

/// A fault strikes the put of the manifest of a flush. The flush's name is used up, whether the put
/// is lost or takes effect.
pub fn struck_flush()
    ensures { MustReply (with_quiet_scheduler append) struck_flush }
{}

/// Two jobs take the same run. The poll opens the first one, and the second fails by rule 8.
pub fn shared_source()
    ensures { MustReply (with_quiet_scheduler append) shared_source }
{}

/// A job of the newest flush alone fails by rule 5, since its sources do not reach the oldest
/// flush.
pub fn oldest_flush()
    ensures { MustReply (with_quiet_scheduler append) oldest_flush }
{}

/// A job into the greatest run id fails by rule 7. A job without sources fails by rule 1.
pub fn destinations()
    ensures { MustReply (with_quiet_scheduler append) destinations }
{}

/// A drain drops the flushes of a segment that it names. A drain of the root fails by rule 2.
pub fn drains()
    ensures { MustReply (with_quiet_scheduler append) drains }
{}

/// Tables whose key ranges do not overlap become a run as they are, in the order of their first
/// keys. No worker takes part.
pub fn moved_tables()
    ensures { MustReply (with_quiet_scheduler append) moved_tables }
{}

/// There are no records before a coordinator starts. A submission is refused, and a claim finds no
/// job.
pub fn no_records()
    ensures { MustReply (with_quiet_scheduler append) no_records }
{}

/// The scheduler picks the eight oldest of ten flushes of the root, and all flushes of a segment.
/// Each of the two jobs is made in four ranges.
pub fn two_segments()
    ensures { MustReply with_two_picks two_segments }
{}

/// The scheduler proposes a job twice. The second proposal is dropped, and the number drawn for it
/// is used up. The scheduler declines to generate jobs.
pub fn proposed_twice()
    ensures { MustReply with_one_proposed_twice proposed_twice }
{}

/// A worker is killed between two versions of a key. The next worker writes exactly the versions
/// that are missing.
pub fn cut_inside_a_key()
    ensures { MustReply (with_quiet_scheduler append) cut_inside_a_key }
{}

/// A worker may not finish a job that another worker has claimed since.
pub fn older_attempt()
    ensures { MustReply (with_quiet_scheduler append) older_attempt }
{}

/// A poll frees a job once more than the timeout has passed since its heartbeat. It does not free
/// the job when exactly the timeout has passed.
pub fn boundary_of_silence()
    ensures { MustReply (with_quiet_scheduler append) boundary_of_silence }
{}

/// A worker that stops gives its job back. A job of a flush that is not in the tree fails by rule
/// 4.
pub fn stopped_worker()
    ensures { MustReply (with_quiet_scheduler append) stopped_worker }
{}

/// A newer coordinator fences an older one. The older one's poll ends after its first get and the
/// coordinator is no longer live. A fault that waits for a second get therefore strikes the next
/// poll.
pub fn fence()
    ensures { MustReply (with_quiet_scheduler append) fence }
{}

/// A fault strikes the put of a finish, and the put takes effect. The next poll commits the job.
pub fn standing_put()
    ensures { MustReply (with_quiet_scheduler append) standing_put }
{}

/// Of a commit only the put of the manifest takes effect. The next coordinator does not commit the
/// job again: it fails by rule 10, since its source has other tables now.
pub fn takeover()
    ensures { MustReply (with_quiet_scheduler append) takeover }
{}

/// A poll commits a job and moves its run by another job, but only the put of the manifest takes
/// effect. After the takeover both jobs fail, and no row is lost.
pub fn moved_run_takeover()
    ensures { MustReply (with_quiet_scheduler append) moved_run_takeover }
{}

/// The operator refuses a fold. The finish is refused with its message, and the job waits again
/// with the settings that it has. A read of the key is refused with the message too.
pub fn refusing_operator()
    ensures { MayReply (with_quiet_scheduler append_unmarked) refusing_operator }
{}

/// With a retention of one second, a job keeps what was readable during the second before its
/// claim. The older value, below the floor, can still be read afterwards. A read below the job's
/// cut is refused.
pub fn kept_by_time()
    ensures { MustReply (with_quiet_scheduler append) kept_by_time }
{}

/// Without a retention, a job keeps what reads see from the floor on. Reads below the floor are
/// refused after its commit.
pub fn kept_by_floor()
    ensures { MustReply (with_quiet_scheduler append) kept_by_floor }
{}

/// A worker of the first release publishes a context without a cut. A worker of the second release
/// goes on with the floor as the cut, so the older value is dropped.
pub fn job_without_cut()
    ensures { MustReply (with_quiet_scheduler append) job_without_cut }
{}

/// A worker of the first release takes no job whose context has a cut. A worker of the second
/// release takes it and keeps that cut.
pub fn job_with_cut()
    ensures { MustReply (with_quiet_scheduler append) job_with_cut }
{}

/// A job compacts an empty run into itself and leaves the tree as it is. The horizon rises to the
/// job's cut, so reads below it are refused after the commit.
pub fn horizon_alone()
    ensures { MustReply (with_quiet_scheduler append) horizon_alone }
{}

/// A sweep deletes the table of a flush that went into a run. The next sweep finds no table to
/// delete, and the run is whole.
pub fn swept()
    ensures { MustReply (with_quiet_scheduler append) swept }
{}

/// A sweep keeps a table that a live worker has written and not yet published. After the worker is
/// killed, a sweep deletes that table and keeps the published one for the next worker.
pub fn swept_beside_worker()
    ensures { MustReply (with_quiet_scheduler append) swept_beside_worker }
{}

/// A fault strikes the list of tables of a sweep, which then deletes nothing. The next sweep
/// deletes the table.
pub fn struck_sweep()
    ensures { MustReply (with_quiet_scheduler append) struck_sweep }
{}

/// A scan stops at its limit and names the next key, from which another scan goes on. Deleted and
/// expired keys have no answer. An empty range and a segment without a tree have none either. A
/// scan before the tick is refused.
pub fn scanned_pages()
    ensures { MustReply (with_quiet_scheduler append) scanned_pages }
{}

/// A scan ends at the first key whose fold the operator refuses, with its message, unless the limit
/// comes first.
pub fn scanned_to_refusal()
    ensures { MustReply (with_quiet_scheduler append_unmarked) scanned_to_refusal }
{}

/// Two of four runs are above their sizes, and the scheduler picks each of them with the next run.
/// With one slot it picks the first pair only. If all runs are within their sizes, it picks
/// nothing.
pub fn levels_are_picked()
    ensures { LevelsArePicked }
{}

/// Flushes are compacted until a poll finds nothing to do. A settle line of one round does not
/// settle if its poll adds a job. The next settle line settles.
pub fn settled_levels()
    ensures { MustReply with_levels settled_levels }
{}

/// A round whose poll moves a job at once does not settle, since that poll added the job.
pub fn settled_moves()
    ensures { MustReply with_levels settled_moves }
{}

/// A fault strikes the claim of a settle line. The reply is storefault, and the worker is no longer
/// live. Once the job is stale, a later settle line with a new worker finishes it.
pub fn struck_settle()
    ensures { MustReply with_levels struck_settle }
{}

/// A settle line whose parties are not live is refused.
pub fn settled_by_nobody()
    ensures { MustReply (with_quiet_scheduler append) settled_by_nobody }
{}

/// The script of two rounds that the number 7 makes.
pub fn generated_from_seven()
    ensures { script_text (generated_lines 7 2) ≡ concat (map newline generated_from_seven) }
{}

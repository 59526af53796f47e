//! What a coordinator makes of jobs and of trees, compared with the model, and what merges and
//! trims of jobs keep.

ghost use Rattle.fleet_book.specs.Laws.{DrainsAreTheModels, FinishedFlushesStay, FinishedRunsStay, JoinsAreTheModels, LastOverJobsAreKept, MergedManifestsAreTheModels, MergesAreTheModels, MovesAreTheModels, NewJobsAreTheModels, OpenJobsAreKept, RepeatedMergesAreIdle, RepeatedTrimsAreIdle, ReplacementsAreTheModels, TrivialMovesAreTheModels};

/// `finish_drain_compaction` changes the trees as the model's drain does.
pub fn drains_are_the_models()
    ensures { DrainsAreTheModels }
{}

/// `finish_compaction` changes the trees as the model's join does.
pub fn joins_are_the_models()
    ensures { JoinsAreTheModels }
{}

/// `finish_compaction` of a move changes the trees as the model's move does.
pub fn moves_are_the_models()
    ensures { MovesAreTheModels }
{}

/// `finish_compaction` of the run that `trivial_move_output` gives changes the trees as the model's
/// move does, if the prefixes of the segments rise, the job names its flushes before its runs, and
/// the tables have the first keys that their descriptions say.
pub fn trivial_moves_are_the_models()
    ensures { TrivialMovesAreTheModels }
{}

/// `finish_compaction` keeps the order of runs, and loses no run.
pub fn finished_runs_stay()
    ensures { FinishedRunsStay }
{}

/// After `finish_compaction` and `finish_drain_compaction`, the flushes that stay are those that
/// are newer than the watermark, if all were newer than the watermark before, and each flush that is
/// older than a source is a source too.
pub fn finished_flushes_stay()
    ensures { FinishedFlushesStay }
{}

/// `JobMap::insert` under a new id is the model's insertion.
pub fn new_jobs_are_the_models()
    ensures { NewJobsAreTheModels }
{}

/// `JobMap::insert` and `JobMap::replace` under an id that is there change the jobs as the model
/// does.
pub fn replacements_are_the_models()
    ensures { ReplacementsAreTheModels }
{}

/// `merge_remote_compactions` takes stored jobs as the model's coordinator does.
pub fn merges_are_the_models()
    ensures { MergesAreTheModels }
{}

/// `merge_remote_manifest` merges trees as the model's coordinator does. The rest is the stored
/// manifest's.
pub fn merged_manifests_are_the_models()
    ensures { MergedManifestsAreTheModels }
{}

/// `merge_remote_compactions` changes no job if it gets the same stored records again.
pub fn repeated_merges_are_idle()
    ensures { RepeatedMergesAreIdle }
{}

/// `retain_active_and_last_finished` drops no job of those that it kept before.
pub fn repeated_trims_are_idle()
    ensures { RepeatedTrimsAreIdle }
{}

/// `retain_active_and_last_finished` keeps all jobs that are not over.
pub fn open_jobs_are_kept()
    ensures { OpenJobsAreKept }
{}

/// Of the jobs that are over, `retain_active_and_last_finished` keeps the last one alone.
pub fn last_over_jobs_are_kept()
    ensures { LastOverJobsAreKept }
{}

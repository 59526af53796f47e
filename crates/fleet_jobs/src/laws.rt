//! What jobs take of trees and how their records change, compared with the model.

ghost use Rattle.fleet_jobs.specs.Laws.{BeatsAreTheModels, ClaimsAreTheModels, CompletionsAreTheModels, ContinuedContextsExtend, EndsAreTheModels, FailuresAreTheModels, HeldNodesDecide, MovableJobsAreTheModels, MovedRunsAreTheModels, NodesAreTheModels, OpeningsAreTheModels, StandingSourcesStand, SubmittedSourcesStand, TakenRunsAreTheModels, TakenTablesAreTheModels, TakenViewsAreTheModels, WaitsAreTheModels};

/// `get_l0_sst_views` gives the flushes among the model's source nodes.
pub fn taken_views_are_the_models()
    ensures { TakenViewsAreTheModels }
{}

/// `get_sorted_runs` gives the runs among the model's source nodes.
pub fn taken_runs_are_the_models()
    ensures { TakenRunsAreTheModels }
{}

/// A move takes the tables of the model's source nodes, if flushes are named before runs.
pub fn taken_tables_are_the_models()
    ensures { TakenTablesAreTheModels }
{}

/// `trivial_move_output` gives the run that the model's move makes.
pub fn moved_runs_are_the_models()
    ensures { MovedRunsAreTheModels }
{}

/// Where moves are allowed, `trivial_move_output` gives a run exactly if the model can move the
/// job. The job is no drain and names its flushes before its runs, and the tables have the first
/// and the last key that their descriptions say, and the first is not above the last.
pub fn movable_jobs_are_the_models()
    ensures { MovableJobsAreTheModels }
{}

/// `set_status` with Completed makes a job as the model's completion does.
pub fn completions_are_the_models()
    ensures { CompletionsAreTheModels }
{}

/// `set_status` with Failed makes a job as the model's failure does.
pub fn failures_are_the_models()
    ensures { FailuresAreTheModels }
{}

/// `set_status` with Scheduled and `set_worker` with None make a job wait as the model does.
pub fn waits_are_the_models()
    ensures { WaitsAreTheModels }
{}

/// `set_status` with Scheduled, `set_source_tables` and `set_ctx` with None open a job as the model
/// does.
pub fn openings_are_the_models()
    ensures { OpeningsAreTheModels }
{}

/// `set_status` with Running, `set_worker` and `set_attempt` make a job as the model's claim does.
pub fn claims_are_the_models()
    ensures { ClaimsAreTheModels }
{}

/// `set_worker` and `set_ctx` make a job as the model's heartbeat does.
pub fn beats_are_the_models()
    ensures { BeatsAreTheModels }
{}

/// `set_status` with Compacted, `set_worker`, `set_ctx` with None, `set_outputs` and `set_cut`
/// make a job as the model's finish does.
pub fn ends_are_the_models()
    ensures { EndsAreTheModels }
{}

/// After `CompactionContext::set_output_ssts` a context extends the one before, so that `set_ctx`
/// takes it.
pub fn continued_contexts_extend()
    ensures { ContinuedContextsExtend }
{}

/// `nodes_at` gives the model's nodes of a tree.
pub fn nodes_are_the_models()
    ensures { NodesAreTheModels }
{}

/// If the sources of a job stand as the model says of a stored job, `sources_stand` holds.
pub fn standing_sources_stand()
    ensures { StandingSourcesStand }
{}

/// If a job passes the gate for submitted jobs, `sources_stand` holds.
pub fn submitted_sources_stand()
    ensures { SubmittedSourcesStand }
{}

/// A job that holds no nodes passes the rule on held nodes exactly if `held_nodes` leaves its
/// nodes.
pub fn held_nodes_decide()
    ensures { HeldNodesDecide }
{}

//! Laws on what the parties of a fleet hold of a store. Each function has an empty body, and its
//! clause states a law: lawful calls of other parties keep what a worker and a coordinator hold.
#![tactic(auto)]

ghost use Rattle.row_model.specs.Fold.{Operator};
ghost use Rattle.rival_laws.specs.FitLaws.{CoordinatorsKeep, RivalsKeepCoordinators};
ghost use Rattle.rival_laws.specs.FitLaws.{RivalsKeepWorkers, WorkersKeep};
ghost use Rattle.rival_laws.specs.Free.{FreeTablesStay, RivalsKeepFree};
ghost use Rattle.rival_laws.specs.Idle.{StaysIdle};
ghost use Rattle.rival_laws.specs.Runs.{OthersRunSteps};

/// A lawful call of another party keeps what a worker holds, whether a fault strikes the call or
/// not. A deletion must spare the tables that the worker holds for its attempts.
pub fn workers_keep()
    ensures { (merge : Operator) → WorkersKeep merge }
{}

/// Calls of others that come between two calls of a worker keep what it holds, if each lawful call
/// keeps the invariant.
pub fn rivals_keep_workers()
    ensures { RivalsKeepWorkers }
{}

/// A lawful call of another party keeps what a coordinator holds, whether a fault strikes the call
/// or not.
pub fn coordinators_keep()
    ensures { (merge : Operator) → CoordinatorsKeep merge }
{}

/// Calls of others that come between two calls of a coordinator keep what it holds, if each lawful
/// call keeps the invariant.
pub fn rivals_keep_coordinators()
    ensures { RivalsKeepCoordinators }
{}

/// A lawful call of another party names no table that a worker put and that nothing names yet,
/// whether a fault strikes the call or not.
pub fn free_tables_stay()
    ensures { (merge : Operator) → FreeTablesStay merge }
{}

/// Calls of others that come between two calls of a worker name none of its free tables, if each
/// lawful call keeps the invariant.
pub fn rivals_keep_free()
    ensures { RivalsKeepFree }
{}

/// To a party that makes no call in between, a run of a lawful course of another party is calls of
/// others. So a whole run of another party's step keeps what a worker and a coordinator hold,
/// however it ends.
pub fn others_run()
    ensures { OthersRunSteps }
{}

/// A lawful call that neither submits jobs nor is the put of a poll makes no job active where none
/// is. So after a poll that left no active job, no call of a worker makes one.
pub fn idle_stores_stay()
    ensures { StaysIdle }
{}

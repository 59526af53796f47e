//! Laws on commits. Each function has an empty body, and its clause states a law: about the steps of
//! a lawful commit, or about all lawful calls.
#![tactic(auto)]

ghost use Rattle.row_model.specs.Fold.{IsLawful, Operator};
ghost use Rattle.step_laws.specs.Runs.{CallsKeep};
ghost use Rattle.commit_laws.specs.CommitLaws.{CommitsKeep};
ghost use Rattle.commit_laws.specs.RunLaws.{CoursesKeep};
ghost use Rattle.commit_laws.specs.RunReads.{RunsKeepReads};
ghost use Rattle.commit_laws.specs.SecondJoins.{SecondJoinsRest};
ghost use Rattle.commit_laws.specs.SparedJobs.{CommitsSpareJobs};
ghost use Rattle.commit_laws.specs.StepForms.{JoinsReplace, MovesReplace};

/// A run that a join or a move makes of some nodes answers every read from the horizon and the tick
/// on as the flushes that went into these nodes, whatever rows are above and below. A last run may
/// have dropped old tombstones, so no rows may be below it.
pub fn runs_keep_reads()
    ensures { (merge : Operator) → IsLawful merge → RunsKeepReads merge }
{}

/// Commits keep the invariant, if they are lawful and the operator is. A join puts one run of its
/// job's rows in place of its sources, a move puts the sources' own tables there, and a drain takes
/// the sources out. No read from the horizon and the tick on changes, and other jobs' sources stay.
pub fn commits_keep()
    ensures { (merge : Operator) → IsLawful merge → CommitsKeep merge }
{}

/// A lawful commit spares each job that waits for a worker or runs. The job's sources stay one after
/// the other in their tree, and settings that fit the job fit it still.
pub fn commits_spare_jobs()
    ensures { (merge : Operator) → IsLawful merge → CommitsSpareJobs merge }
{}

/// Every lawful call keeps the invariant, under a lawful operator and whether a fault strikes it or
/// not.
pub fn calls_keep()
    ensures { (merge : Operator) → IsLawful merge → CallsKeep merge }
{}

/// Under a lawful operator, calls of others keep the invariant, and so does each run of a lawful
/// course, whatever calls of others come in between and however the run ends.
pub fn courses_keep()
    ensures { CoursesKeep }
{}

/// A join puts one run in place of its sources. The run has all rows that the settings of one claim
/// make of the sources' tables, and the flushes of all sources. All other trees stay as they are.
pub fn joins_replace()
    ensures { (merge : Operator) → IsLawful merge → JoinsReplace merge }
{}

/// A move puts one run in place of its sources. The run has the sources' own tables in the order of
/// their first keys, and so the sources' rows in order. All other trees stay as they are.
pub fn moves_replace()
    ensures { (merge : Operator) → IsLawful merge → MovesReplace merge }
{}

/// A second join of a job whose join took effect changes no tree, under a lawful operator and where
/// the job passes the gate. So a coordinator that lost its put of the records may commit anew.
pub fn second_joins_rest()
    ensures { (merge : Operator) → IsLawful merge → SecondJoinsRest merge }
{}

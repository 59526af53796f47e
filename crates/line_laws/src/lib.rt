//! Laws on the lines of scripts, with any scheduler and a lawful operator. Each function has an
//! empty body. Its clause states a law about every run of lines from a fresh fleet, or about every
//! course that such a line runs.
#![tactic(auto)]

ghost use Rattle.line_laws.specs.Alone.{AloneRuns};
ghost use Rattle.line_laws.specs.AttemptRuns.{AttemptsStayOne};
ghost use Rattle.line_laws.specs.Lines.AttemptLines.{AttemptsGoOn};
ghost use Rattle.line_laws.specs.Lines.BeatLines.{BeatsPublish, StopsRelease};
ghost use Rattle.line_laws.specs.Lines.Causes.{CausesDecide};
ghost use Rattle.line_laws.specs.Lines.ClaimLines.{ClaimsTake};
ghost use Rattle.line_laws.specs.Lines.ClaimSettings.{ClaimsGiveSettings};
ghost use Rattle.line_laws.specs.Lines.CommittedTables.{
  FinishesName,
  NamedTablesAreCommitted,
  OutputsNote,
};
ghost use Rattle.line_laws.specs.Lines.Conflicts.{NoneConflicts};
ghost use Rattle.line_laws.specs.Faults.{FaultsCut};
ghost use Rattle.line_laws.specs.Lines.FinishLines.{FinishesEnd};
ghost use Rattle.line_laws.specs.Lines.FinishedJobs.{FinishedJobsWait};
ghost use Rattle.line_laws.specs.CountsOnce.{JobsCountOnce};
ghost use Rattle.line_laws.specs.Goes.{LinesGo, ScriptsGo, TextsGo};
ghost use Rattle.line_laws.specs.Live.{LiveCoordinators, LiveWorkers};
ghost use Rattle.line_laws.specs.Lines.Outputs.{OutputsAreWhole};
ghost use Rattle.line_laws.specs.Lines.PollCalls.{PollsCall};
ghost use Rattle.line_laws.specs.Lines.PollLines.{PollsCommit};
ghost use Rattle.line_laws.specs.Ran.{LinesRunCourses};
ghost use Rattle.line_laws.specs.Lines.ReadLines.{ReadsAnswer};
ghost use Rattle.line_laws.specs.Lines.Refused.{RefusalsLeave};
ghost use Rattle.line_laws.specs.Lines.UnnamedTables.{UnownedTablesAreUnnamed};
ghost use Rattle.line_laws.specs.Scripts.{FirstLinesRun, ScriptsKeep};
ghost use Rattle.line_laws.specs.Texts.{OptionsStay, TextsRun};
ghost use Rattle.line_laws.specs.WorkedRun.{WorkedRuns};
ghost use Rattle.script_model.specs.States.{FleetOptions, Inputs};

/// A course that runs alone over a store runs as courses do, if the history had room for its draws.
pub fn alone_runs()
    ensures { AloneRuns }
{}

/// A fault cuts the calls of a course at the call that it strikes. The calls before it are made as
/// without the fault, and the later ones are not made. So what is said of the order of a line's
/// calls holds also where a fault strikes between two of them.
pub fn faults_cut()
    ensures { FaultsCut }
{}

/// The state after each line keeps the invariant, and each live party fits it, whatever parties are
/// killed and whatever faults strike.
pub fn scripts_keep()
    ensures { ScriptsKeep }
{}

/// The lines of a run may be cut in two anywhere: the first ones ran too, with the first replies.
/// So what the other laws say of the last state of a run, they say of the state after each of its
/// lines.
pub fn first_lines_run()
    ensures { FirstLinesRun }
{}

/// Each line of a script runs one course, from a state that keeps the invariant. A settle line runs
/// polls, claims and finishes, one after the other, and each of them is such a course. A step that
/// is refused is the last one, and its reply is that of the line. So the laws on polls, claims and
/// finishes hold for each line of its own, and for each step of a settle line.
pub fn lines_run_courses()
    ensures { LinesRunCourses }
{}

/// Each line has a reply and a state that it leaves, also if the operator refuses a fold that it
/// needs. So a fleet that runs lines is never stuck at one. Nothing says yet what a together line
/// does.
pub fn lines_go()
    ensures { LinesGo }
{}

/// Lines one after the other have replies and a state that they leave, if none is a together line.
/// So each such script has a run.
pub fn scripts_go()
    ensures { ScriptsGo }
{}

/// A fresh fleet can follow each script of the lines that the program serves, and each script of
/// all lines but together lines: there are replies to write and a store to leave.
pub fn texts_go()
    ensures { TextsGo }
{}

/// No line replies that its puts were refused, since nobody else calls the store during a line.
pub fn none_conflicts()
    ensures { NoneConflicts }
{}

/// A line is refused exactly if a cause of its kind holds, with the refusal of the first one: a
/// fault strikes one of its calls, its party is missing, or its step is refused by what the state
/// stores, by the scheduler or by the operator. Else it replies as a line that is served. A settle
/// line is refused exactly if one of its parties is missing or its last step is refused, and then
/// replies as that step does.
pub fn causes_decide()
    ensures { CausesDecide }
{}

/// A refused line that is no settle line, and so each refused step of one, leaves manifest, records,
/// tables, names and parties as they were, but for four refusals. A fault leaves the calls up to the
/// struck one, and the coordinator or worker that called is no longer live. A fenced coordinator is
/// no longer live. An operator's refusal gives the attempt back, and its worker runs it no more. A
/// finish of an attempt that is not live has put tables, and its worker runs it no more.
pub fn refusals_leave()
    ensures { RefusalsLeave }
{}

/// A finish whose attempt is not live has put tables beside the old ones, and no node of a tree and
/// no active job names them.
pub fn unowned_tables_are_unnamed()
    ensures { UnownedTablesAreUnnamed }
{}

/// The history alone says which coordinators are live, and with which epochs. A coordinator is live
/// from its start until it is killed, stopped or met by a fault, or until it gets an object with an
/// epoch above its own, which fences it. Its own epoch is the one that its start put.
pub fn live_coordinators()
    ensures { LiveCoordinators }
{}

/// The history alone says which workers are live: a worker is live from its start until it is
/// killed, stopped or met by a fault.
pub fn live_workers()
    ensures { LiveWorkers }
{}

/// A fleet that follows a script, as the contract of a whole script says, ran the script's lines,
/// and what it wrote are their replies. So these laws hold for it.
pub fn texts_run()
    ensures { (inputs : Inputs) (options : FleetOptions) → TextsRun inputs options }
{}

/// The options of a script are those of its first line, if that line sets them, and else those that
/// the fleet began with. They hold after each line.
pub fn options_stay()
    ensures { OptionsStay }
{}

/// A read is refused below the horizon and before the tick. Each other read prints the fold over
/// the rows that were flushed into its segment and not drained, and the stored tables read alike.
pub fn reads_answer()
    ensures { ReadsAnswer }
{}

/// A poll that is not refused, be it a line of its own or a step of a settle line, commits exactly
/// the finished jobs that pass the gate, in the order of their ids. Each commit puts one run of the
/// job's rows, under the settings of one claim, in place of its sources, and all other nodes stay.
/// If a join of the job took effect before, the trees stay too. A whole poll frees exactly the
/// stale jobs before, and then opens, moves or drains exactly the submitted jobs that pass their
/// gate. Its history is the old one and its own calls, the drawn ids are the next ones, and the
/// claims are found in the history that its gets and draws made. Its drains take the flushes of
/// their sources, and no other flush goes.
pub fn polls_commit()
    ensures { PollsCommit }
{}

/// A poll of a live coordinator gets both objects, draws, and puts the manifest and then the
/// records, each if it changed it. It makes all these calls, or the first ones up to one that a
/// fault strikes. It is refused exactly if it is fenced or struck, and never because a put was
/// refused. The poll of a coordinator that is not live changes nothing.
pub fn polls_call()
    ensures { PollsCall }
{}

/// The history alone says which jobs a poll finds finished: those that a finish ended last. They
/// are the stored jobs that are Compacted, and a poll judges exactly these, in the order of their
/// ids.
pub fn finished_jobs_wait()
    ensures { FinishedJobsWait }
{}

/// In each state that keeps the invariant, and so after each line and each step of a settle line,
/// no attempt was claimed twice, no job was finished twice, and no finished job was completed
/// twice. So the claims and commits that a history counts are distinct, and with `histories_count`
/// of `course_laws` they add up over any cut of it.
pub fn jobs_count_once()
    ensures { JobsCountOnce }
{}

/// A claim that is not refused, be it a line of its own or a step of a settle line, takes and stops
/// exactly the jobs of its rule. It begins an attempt at each job that it takes, under the manifest
/// that is stored, and replies with them.
pub fn claims_take()
    ensures { ClaimsTake }
{}

/// An attempt that a claim begins has the settings that the claim read off the stored manifest at
/// the moment of its line: floor, tick, cut, and whether the job makes the last run of its tree. If
/// the job has a published context, the attempt has the settings of that. The history gives the
/// same settings for the attempt, but for the cut.
pub fn claims_give_settings()
    ensures { ClaimsGiveSettings }
{}

/// A finish that is not refused, be it a line of its own or a step of a settle line, ends a live
/// attempt of its worker. The job waits for its commit with the outputs that the reply has, no
/// other job changes, and the trees stay.
pub fn finishes_end()
    ensures { FinishesEnd }
{}

/// In each state that keeps the invariant, and so after each line and each step of a settle line, a
/// job that finished and waits for its commit has outputs that hold all rows that one merge of its
/// source tables makes under the settings of one claim, however often the job was taken over.
pub fn outputs_are_whole()
    ensures { OutputsAreWhole }
{}

/// Each attempt that a worker runs after a line went on from before, with the same number, source
/// tables, settings and ranges and with all tables that were noted, or the line is the worker's
/// claim and began it.
pub fn attempts_go_on()
    ensures { AttemptsGoOn }
{}

/// As long as a worker runs an attempt, it has the source tables, the settings and the ranges that
/// its claim gave it, and all tables that were noted, whatever lines come between.
pub fn attempts_stay_one()
    ensures { AttemptsStayOne }
{}

/// A heartbeat that is not refused beats for exactly the live attempts of its worker, publishes
/// their contexts, and stops the other attempts. It replies with the jobs of both.
pub fn beats_publish()
    ensures { BeatsPublish }
{}

/// A line that stops a worker and is not refused gives exactly its live attempts back, and replies
/// with their jobs.
pub fn stops_release()
    ensures { StopsRelease }
{}

/// An output that is not refused puts the next rows of a range as a table, replies with it, and
/// notes it for the range. If no row was left, it puts none.
pub fn outputs_note()
    ensures { OutputsNote }
{}

/// A finish that is not refused replies with the tables of each range, and the history names these
/// for the job from then on. They begin with the tables that the attempt had noted, and so with
/// those that were published, and have all rows that the settings of the attempt make.
pub fn finishes_name()
    ensures { FinishesName }
{}

/// The run that a commit puts in place of the sources of a job has exactly the tables that the last
/// finish of the job named, in the order of the ranges.
pub fn named_tables_are_committed()
    ensures { NamedTablesAreCommitted }
{}

/// A worked run with a kill, a fault, takeovers of a job and of a coordinator, a settle line that
/// commits the job, a move, a drain and a sweep. So the premises of these laws can be met.
pub fn a_worked_run()
    ensures { WorkedRuns }
{}

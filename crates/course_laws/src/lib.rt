//! Laws on the steps of a fleet's parties. Each function has an empty body, and its clause states a
//! law about a step: it is a lawful course, so each of its calls is lawful whatever calls of others
//! come before it. Of a draw this is said as long as the history has room for it.
#![tactic(auto)]

ghost use Rattle.course_laws.specs.Afterwards.{WorldsComeAfter};
ghost use Rattle.course_laws.specs.Beats.{BeatsAreLawful};
ghost use Rattle.course_laws.specs.Claims.{ClaimsAreLawful};
ghost use Rattle.course_laws.specs.Composed.{LoopsCompose};
ghost use Rattle.course_laws.specs.Finishes.{FinishesAreLawful};
ghost use Rattle.course_laws.specs.Flushes.{FlushesAreLawful};
ghost use Rattle.course_laws.specs.Histories.{HistoriesCount, RivalsAdd};
ghost use Rattle.course_laws.specs.Messages.{MessagesAreLawful};
ghost use Rattle.course_laws.specs.Outputs.{OutputsAreLawful};
ghost use Rattle.course_laws.specs.Releases.{ReleasesAreLawful};
ghost use Rattle.course_laws.specs.Starts.{StartsAreLawful};
ghost use Rattle.course_laws.specs.Submits.{SubmitsAreLawful};
ghost use Rattle.course_laws.specs.Sweeps.{SweepsAreLawful};
ghost use Rattle.step_model.specs.Past.{World};
ghost use Rattle.step_model.specs.Rivals.{Caller};

/// The start of a coordinator is a lawful course over any store.
pub fn starts_are_lawful()
    ensures { StartsAreLawful }
{}

/// The step by which a worker gives its live attempts back is a lawful course over any store.
pub fn releases_are_lawful()
    ensures { ReleasesAreLawful }
{}

/// A worker's claim is a lawful course over any store that meets the invariant, if every lawful
/// call keeps the invariant. The notes of plans that come after its put are lawful too.
pub fn claims_are_lawful()
    ensures { ClaimsAreLawful }
{}

/// A flush is a lawful course over any store that meets the invariant, if every lawful call keeps
/// the invariant. Its name must be one of flushes, and its rows must be some and in bounds.
pub fn flushes_are_lawful()
    ensures { FlushesAreLawful }
{}

/// Submissions are lawful courses over any store that meets the invariant, if every lawful call
/// keeps the invariant. Each drawn id is new when the jobs are put, whatever others did since the
/// draw.
pub fn submits_are_lawful()
    ensures { (who : Caller) (world : World) → SubmitsAreLawful who world }
{}

/// A sweep is a lawful course over a store that meets the invariant, if nobody else calls the store
/// and no flush is about to bring a table to a tree.
pub fn sweeps_are_lawful()
    ensures { SweepsAreLawful }
{}

/// A heartbeat of a worker that fits is a lawful course, if every lawful call keeps the invariant.
pub fn beats_are_lawful()
    ensures { BeatsAreLawful }
{}

/// An output of a worker that fits is a lawful course under a lawful operator, if every lawful call
/// keeps the invariant. The drawn id is new when the table is put, whatever others did since the
/// draw.
pub fn outputs_are_lawful()
    ensures { OutputsAreLawful }
{}

/// A finish of a worker that fits is a lawful course under a lawful operator, if every lawful call
/// keeps the invariant. The put that ends the job names outputs that hold all rows that the
/// attempt's settings make of the job's sources.
pub fn finishes_are_lawful()
    ensures { FinishesAreLawful }
{}

/// The steps by which a worker that fits takes messages about its attempts are lawful courses, if
/// every lawful call keeps the invariant. An attempt ends by a message with all rows that its
/// ranges make.
pub fn messages_are_lawful()
    ensures { MessagesAreLawful }
{}

/// What a run leaves comes after what it found, whatever calls of others come in between and
/// however the run ends. An object that has the same version is the same, tables were only added,
/// and the history went on.
pub fn worlds_come_after()
    ensures { WorldsComeAfter }
{}

/// Calls of others than a caller add no entry that carries the caller's party.
pub fn rivals_add()
    ensures { RivalsAdd }
{}

/// The claims and the commits of a history add up over any cut of it, and no attempt is claimed
/// twice.
pub fn histories_count()
    ensures { HistoriesCount }
{}

/// Two courses, one after the other, run as each of them does, and are lawful if the first one is
/// and the second one is wherever the first one leads.
pub fn loops_compose()
    ensures { LoopsCompose }
{}

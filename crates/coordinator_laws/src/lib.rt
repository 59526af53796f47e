//! Laws on coordinators. Each function has an empty body, and its clause states a law: a poll of a
//! coordinator that fits is a lawful course, and a coordinator fits after its start and its polls.
#![tactic(auto)]

ghost use Rattle.coordinator_laws.specs.CommitPuts.{PollsPutTheirSteps};
ghost use Rattle.coordinator_laws.specs.Coordinators.{PollsFit, StartsFit};
ghost use Rattle.coordinator_laws.specs.Locals.{FinishedJobsMayDiffer, PollsFitLocally};
ghost use Rattle.coordinator_laws.specs.Loops.{LoopsFit};
ghost use Rattle.coordinator_laws.specs.ManifestFirst.{PollsPutTheManifestFirst};
ghost use Rattle.coordinator_laws.specs.Merges.{GotObjectsMerge, LooksKeepFit, MergedJobsAreStored};
ghost use Rattle.coordinator_laws.specs.PollReports.{PollsReport};
ghost use Rattle.coordinator_laws.specs.Polls.{PollsAreLawful};

/// A poll of a coordinator that fits is a lawful course under a lawful operator. Each of its calls is
/// lawful, whatever calls of others come before it: its put of the manifest, and its puts of the
/// records, also after it merged newer records.
pub fn polls_are_lawful()
    ensures { PollsAreLawful }
{}

/// Under a lawful operator, a coordinator that started fits with the epoch that its start reports. It
/// holds no local state yet.
pub fn starts_fit()
    ensures { StartsFit }
{}

/// Under a lawful operator, a coordinator that fits does so after its poll, whether the poll reports,
/// gives up, is struck by a fault or lacks memory, if it holds no local state from then on.
pub fn polls_fit()
    ensures { PollsFit }
{}

/// Under a lawful operator, a coordinator that fits does so after its poll that reports, with a
/// local state that has the trees and the jobs that the poll reached. The poll may have put both
/// objects, one of them or none, and may have merged newer records in between.
pub fn polls_fit_locally()
    ensures { PollsFitLocally }
{}

/// Such a local state may lack finished jobs that a put of the records drops, and it may have
/// finished jobs that the coordinator held before and that the records have dropped since.
pub fn finished_jobs_may_differ()
    ensures { FinishedJobsMayDiffer }
{}

/// A coordinator that fits gets the manifest and then the records, as its poll does, and neither
/// has a later epoch. Merging what it got into its local state gives what it got, but for finished
/// local jobs.
pub fn got_objects_merge()
    ensures { GotObjectsMerge }
{}

/// Jobs that merge so have the stored job of each id or, if none is stored, the local one. So the
/// jobs that a coordinator has after a merge have different ids.
pub fn merged_jobs_are_stored()
    ensures { MergedJobsAreStored }
{}

/// A call that leaves both objects keeps what a coordinator holds, whoever makes it and whether a
/// fault strikes it or not. So the coordinator's own gets and draws and its refused puts keep it.
pub fn looks_keep_fit()
    ensures { LooksKeepFit }
{}

/// Under a lawful operator, a poll that reports freed, committed, failed, added, dropped, opened,
/// moved, drained and refused exactly the jobs of its rules, by the objects that its last try got.
/// It put one commit if it changed the trees or the horizon, and each commit of a job put one run
/// of the job's rows in place of its sources. If newer records came in between, it adopted their
/// jobs.
pub fn polls_report()
    ensures { PollsReport }
{}

/// Under a lawful operator, the trees and the horizon that a poll reached are those that its steps make
/// over each store that it may meet and that still has the version of the manifest that it got: by the
/// specs of the jobs that it got or drew ids for, and by the stored outputs and cuts.
pub fn polls_put_their_steps()
    ensures { PollsPutTheirSteps }
{}

/// A poll puts the manifest before the records, over any store and however it ends: with a report,
/// a refusal, a fault or want of memory, and whatever calls of others come in between. So no put
/// of the records comes before a put of the manifest among its calls.
pub fn polls_put_the_manifest_first()
    ensures { PollsPutTheManifestFirst }
{}

/// Under a lawful operator, the loop of a coordinator that fits is a lawful course, and the
/// coordinator fits after it, however many turns it takes and however it ends.
pub fn loops_fit()
    ensures { LoopsFit }
{}

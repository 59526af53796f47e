//! How the nodes that jobs hold are kept, and when the scheduler is asked.

ghost use Rattle.fleet_gates.specs.Laws.{EndedJobsHoldNone, HeldNodesAreHeld, HeldNodesDecide, LostJobsHoldTheirNodes, OpenedJobsHoldTheirNodes, SchedulersAreAskedLast};

/// `held_nodes` gives the nodes that the jobs hold.
pub fn held_nodes_are_held()
    ensures { HeldNodesAreHeld }
{}

/// The nodes that jobs hold decide rule 8 for a job that holds none, as for a submitted one.
pub fn held_nodes_decide()
    ensures { HeldNodesDecide }
{}

/// After a job is opened, the jobs hold the nodes that they held, and the nodes of this job.
pub fn opened_jobs_hold_their_nodes()
    ensures { OpenedJobsHoldTheirNodes }
{}

/// After the commit of a job failed by rule 0, the jobs hold the nodes that they held, and the
/// nodes of this job.
pub fn lost_jobs_hold_their_nodes()
    ensures { LostJobsHoldTheirNodes }
{}

/// The jobs hold the same nodes after a job that holds none is completed or fails.
pub fn ended_jobs_hold_none()
    ensures { EndedJobsHoldNone }
{}

/// Each gate asks the scheduler last, and only if all other rules hold.
pub fn schedulers_are_asked_last()
    ensures { SchedulersAreAskedLast }
{}

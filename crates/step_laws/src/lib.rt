//! Laws on the steps of a fleet's parties. Each function has an empty body, and its clause states a
//! law about calls of a store: lawful calls keep the store's invariant.
#![tactic(auto)]

ghost use Rattle.row_model.specs.Fold.{Operator};
ghost use Rattle.step_model.specs.Kept.Keeps.{Keeps};
ghost use Rattle.step_model.specs.Past.{fresh_world};
ghost use Rattle.step_laws.specs.CallLaws.{OtherCallsKeep};
ghost use Rattle.step_laws.specs.Later.{CallsLeadLater};
ghost use Rattle.step_laws.specs.Midway.{midway_world};
ghost use Rattle.step_laws.specs.MidwayCalls.{MidwayIsReached};
ghost use Rattle.step_laws.specs.RanLaws.{StepsRan};
ghost use Rattle.step_laws.specs.Replays.{FaithfulAlike};

/// A fresh store meets the invariant and the facts that lawful calls keep.
pub fn fresh_keeps()
    ensures { (merge : Operator) → Keeps merge fresh_world }
{}

/// A store in the midst of two jobs meets them too, under any operator. One job runs at its second
/// attempt, with the context that another worker published. The other job was joined, and the put
/// of the records that comes after the join was lost.
pub fn midway_keeps()
    ensures { (merge : Operator) → Keeps merge midway_world }
{}

/// Lawful calls lead from a fresh store to the store of `midway_keeps`, under any operator. So the
/// conditions of lawful calls can be met: of draws, puts of tables, epochs, flushes, submissions,
/// claims, heartbeats, finishes, changes that polls make, and a commit that joins a run.
pub fn midway_is_reached()
    ensures { (merge : Operator) → MidwayIsReached merge }
{}

/// Any two faithful choices of specs give the same replay after each part of the history.
pub fn faithful_alike()
    ensures { FaithfulAlike }
{}

/// Every lawful call that is no commit keeps the invariant, under any operator and whether a fault
/// strikes it or not.
pub fn other_calls_keep()
    ensures { (merge : Operator) → OtherCallsKeep merge }
{}

/// A call of anyone leads to a later store, whether a fault strikes it or not, and so do any calls
/// of others: an object that has the same version is the same, and tables were only added.
pub fn calls_lead_later()
    ensures { CallsLeadLater }
{}

/// A run of a step with the fault that waits is a run, so all laws on runs say something of it. If
/// nobody else calls the store, it gives exactly the answer, the store and the fault left that the
/// course gives which runs alone.
pub fn steps_ran()
    ensures { StepsRan }
{}

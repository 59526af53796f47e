//! Laws on the fleet. Each function has an empty body, and its clause states a law about the stored
//! objects, the calls of a store, or the outputs and cuts of attempts.
#![tactic(auto)]

ghost use Rattle.std.specs.Prelude.{ℕ, ℤ, List};
ghost use Rattle.row_model.specs.Fold.{Operator};
ghost use Rattle.row_model.specs.Ranges.{Range};
ghost use Rattle.fleet_model.specs.History.{Party};
ghost use Rattle.fleet_model.specs.Store.{Manifest, Store};
ghost use Rattle.fleet_laws.specs.Begins.{FreshFleetFits};
ghost use Rattle.fleet_laws.specs.Cuts.{CutsAreLow, WorkedCuts};
ghost use Rattle.fleet_laws.specs.Faults.{OldPutsAreLost};
ghost use Rattle.fleet_laws.specs.Outputs.{OutputsMakeWhatIsLeft};
ghost use Rattle.fleet_laws.specs.Reads.{ReplacementsAddUp, StoresAnswerReads};
ghost use Rattle.fleet_laws.specs.Scans.{ScansAnswerAsReads, StoresAnswerScans};
ghost use Rattle.fleet_laws.specs.Sweeps.{SweepIsExact};
ghost use Rattle.fleet_laws.specs.Transparent.{SweepsAreTransparent};

/// A fresh store with no live party meets the fleet's invariant, so the invariant holds before the
/// first line of a script.
pub fn fresh_fleet_fits()
    ensures { (merge : Operator) → FreshFleetFits merge }
{}

/// Replacements of rows that change no read add up: newer and older rows of a key may both be
/// replaced, and a replacement may be replaced again. So several nodes may become one, node by
/// node.
pub fn replacements_add_up()
    ensures { (merge : Operator) (manifest : Manifest) (key : List ℕ)
        → ReplacementsAddUp merge manifest key }
{}

/// A store that meets the invariant answers every read, from its horizon and tick on, as if its
/// nodes still had all rows that were ever flushed into them. No such read sees what compactions
/// dropped.
pub fn stores_answer_reads()
    ensures { (merge : Operator) → StoresAnswerReads merge }
{}

/// A put of a version that is not the stored one changes nothing if a fault strikes it. The history
/// then has Lost as its answer, even if the fault lets puts stand.
pub fn old_puts_are_lost()
    ensures { (line : ℕ) (party : Party) (version : ℕ) (store : Store)
        → OldPutsAreLost line party version store }
{}

/// If the tables that a worker noted for a range hold the first rows that the range makes, the
/// worker can go on after the last noted row. What the source tables make there is exactly what the
/// attempt has left to write.
pub fn outputs_make_what_is_left()
    ensures { (merge : Operator) → OutputsMakeWhatIsLeft merge }
{}

/// A claim's cut is at most the floor, whatever the release of its worker. Under a retention, the
/// cut of a worker of release 2 is also at most the sequence before the least one of each flush
/// within the retention. So what could be read before that flush can still be read. If the least
/// sequence is 0, the cut is 0.
pub fn cuts_are_low()
    ensures low { (manifest : Manifest) (moment retention : ℕ)
        → CutsAreLow manifest moment retention }
    ensures worked { WorkedCuts }
{}

/// A sweep deletes exactly the held tables that are not pinned, that no node of a tree names, and
/// that no active job names in its context or its outputs.
pub fn sweeps_are_exact()
    ensures { (pins : List ℕ) (store : Store) → SweepIsExact pins store }
{}

/// A history may be read without the entries of sweepers: it gives the same trees and jobs, the
/// same live parties, and the same settings and ranges of each attempt. This holds after each
/// entry, since it is said of every history.
pub fn sweeps_are_transparent()
    ensures { SweepsAreTransparent }
{}

/// A scan of a range answers as reads of its keys do, at the same sequence and moment. A key is in
/// the list of the scan exactly if its read gives an answer, and it has that answer there.
pub fn scans_answer_as_reads()
    ensures { (merge : Operator) (store : Store) (segment : List ℕ) (range : Range) (seq : ℕ)
        (now : ℤ) → ScansAnswerAsReads merge store segment range seq now }
{}

/// A store that meets the invariant answers every scan, from its horizon and tick on, as if its
/// nodes still had all rows that were ever flushed into them.
pub fn stores_answer_scans()
    ensures { (merge : Operator) → StoresAnswerScans merge }
{}

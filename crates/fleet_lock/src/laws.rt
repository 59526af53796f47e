//! What calls through a pass leave of it.

ghost use Rattle.fleet_lock.specs.Passes.{CallersKeepPasses};

/// A step that leaves the caller of a store as it was leaves the pass of that store its parts and
/// its names.
pub fn callers_keep_passes()
    ensures { CallersKeepPasses }
{}

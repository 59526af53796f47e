//! The parties that call a store.

/// A party that calls a store. Coordinators and workers have numbers.
#[derive(Clone, Copy, Debug, PartialEq, Eq)]
pub enum Party {
    /// It flushes rows.
    Writer,
    /// It submits jobs.
    Submitter,
    Coordinator(u64),
    Worker(u64),
    /// It deletes tables that nothing can need.
    Sweeper,
}

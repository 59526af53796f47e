//! The sources of jobs.

ghost use Rattle.std.specs.Prelude.{◌≡◌, Some, IfOk};
ghost use Rattle.fleet_jobs.specs.Sources.{run_id_of, source_text, view_id_of};

use fleet_rows::{Copies, ListOf, Ulid};
use std::alloc::AllocError;
use std::fmt;

/// A source of a job: a sorted run by its id, or a flush by the id of its view.
#[derive(Clone, Copy, Debug, PartialEq, Eq, Hash)]
pub enum SourceId {
    SortedRun(u32),
    SstView(Ulid),
}

impl SourceId {
    /// The id of the sorted run, or None if the source is a flush.
    pub fn maybe_unwrap_sorted_run(&self) -> Option<u32>
        ensures { result ≡ run_id_of self.now }
    {
        match self {
            SourceId::SortedRun(id) => Some(*id),
            SourceId::SstView(_) => None,
        }
    }

    /// The id of the flush's view, or None if the source is a sorted run.
    pub fn maybe_unwrap_sst_view(&self) -> Option<Ulid>
        ensures { result ≡ view_id_of self.now }
    {
        match self {
            SourceId::SortedRun(_) => None,
            SourceId::SstView(id) => Some(*id),
        }
    }
}

impl Copies for SourceId {
    fn copied(&self) -> Result<SourceId, AllocError> {
        Ok(*self)
    }
}

/// Prints a sorted run as its id, and each flush as `l0`.
impl fmt::Display for SourceId {
    ghost output = { λ source. Some (source_text source) };

    fn fmt<W: fmt::Write>(&self, f: &mut fmt::Formatter<W>) -> fmt::Result {
        match self {
            SourceId::SortedRun(id) => write!(f, "{id}"),
            SourceId::SstView(_) => write!(f, "l0"),
        }
    }
}

/// The sources of a job, in the order in which its spec names them.
pub type SourceList = ListOf<SourceId>;

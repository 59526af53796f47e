//! The sources of a job, where nodes are looked up.

ghost use Rattle.std.specs.Prelude.{◌≡◌, IfOk};
ghost use Rattle.fleet_model.specs.Nodes.{L0, Run};
ghost use Rattle.fleet_book.specs.Finishes.{is_named};

use fleet_jobs::{NodeSet, SourceId};
use fleet_rows::Ulid;
use std::alloc::{AllocError, Global};
use std::marker::Model;

/// The sources of a job. Contracts see them in their order. A node is looked up among them in a
/// time that grows with the logarithm of their number.
#[derive(Debug, Drop)]
pub(crate) struct Sources<'a> {
    sources: &'a [SourceId],
    names: NodeSet,
}

impl<'a> Model for Sources<'a> {
    ghost use Rattle.std.specs.Prelude.{◌≡◌, List, map};
    ghost use Rattle.fleet_jobs.specs.Sources.{name_of};
    ghost use Rattle.fleet_jobs.specs.declared.source_id.SourceId.{SourceId};

    ghost Value = { List SourceId };

    ghost view = { λ s. s.sources.now };

    ghost invariant = { λ s. s.names ≡ map name_of s.sources.now };
}

impl<'a> Sources<'a> {
    pub(crate) fn new(alloc: Global, sources: &'a [SourceId]) -> Result<Sources<'a>, AllocError>
        ensures { IfOk result (λ made. made ≡ sources.now) }
    {
        let names = NodeSet::of_nodes(alloc, sources)?;
        Ok(Sources { sources, names })
    }

    /// Whether the flush with this id is a source.
    pub(crate) fn has_view(&self, id: Ulid) -> bool
        ensures { result ≡ is_named self.now (L0 id) }
    {
        self.names.contains(SourceId::SstView(id))
    }

    /// Whether the run with this id is a source.
    pub(crate) fn has_run(&self, id: u32) -> bool
        ensures { result ≡ is_named self.now (Run id) }
    {
        self.names.contains(SourceId::SortedRun(id))
    }
}
